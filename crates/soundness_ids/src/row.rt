// The ids of all nodes in one row, so that wide instructions compare them.
ghost use Rattle.std.specs.Prelude.{◌≡◌, not, ◌<◌, eqb, get_or, take};
ghost use Rattle.std.specs.List.{list_all};
ghost use Rattle.soundness_ids.specs.Rows.{InRow};

use crate::checked::Checked;

// The id of node k + 1 at place k.
pub fn of(state: &Checked<'_>) -> [u32; 64]
    ensures { InRow state.now.words.now result }
{
    let mut ids = [0u32; 64];
    for k in 0..state.settings.nodes {
        ids[k] = state.id(k + 1);
    }
    ids
}

// One for equal ids.
fn equal(a: u32, b: u32) -> u32
    ensures { eqb result 0 ≡ not (eqb a b) }
{
    (a == b) as u32
}

// No place before k has its id: gathered by `or` with no early exit.
pub fn is_new(ids: &[u32; 64], k: usize) -> bool
    requires { k < 64 }
    ensures { result ≡ list_all (λ id. not (eqb id (get_or ids.now k 0))) (take k ids.now) }
{
    let id = ids[k];
    let mut same: u32 = 0;
    for other in &ids[..k] {
        same = same | equal(*other, id);
    }
    same == 0
}
