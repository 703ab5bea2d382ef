// What nothing uses is zero: words 4 to 7, the records and tables behind the last node's. (The unused places of a node's own table are the business of
// `soundness_tables`.)
ghost use Rattle.std.specs.Prelude.{◌≡◌, ◌≤◌, length};
ghost use Rattle.model.specs.Memory.{tables_length};
ghost use Rattle.model.specs.Sound.{state_rest_zero, tables_rest_zero, unused_zero};

use soundness_ids::checked::Checked;
use state::lent::STATE_LENGTH;
use state::zero;

// Words 4 to 7, and the records behind the last node's.
#[tactic(auto, unfolding(model::specs::Sound::state_rest_zero))]
fn state_rest(state: &Checked<'_>) -> bool
    ensures { result ≡ state_rest_zero state.now.words.now }
{
    let a = 8 * state.settings.nodes + 8;
    zero::all_zero(&state.words[4..8]) && zero::all_zero(&state.words[a..STATE_LENGTH])
}

// The tables behind the last node's, one after the other. Tried as one run of all their bytes: 15 in
// 100 slower on a network of one node; each of these runs has a fixed length.
fn tables_rest(state: &Checked<'_>, tables: &[u8]) -> bool
    requires { tables_length ≤ length tables.now }
    ensures { result ≡ tables_rest_zero state.now.words.now tables.now }
{
    for k in state.settings.nodes..64 {
        let a = 512 * k;
        if !zero::all_zero(&tables[a..a + 512]) {
            return false;
        }
    }
    true
}

#[tactic(auto, unfolding(model::specs::Sound::unused_zero))]
pub fn all(state: &Checked<'_>, tables: &[u8]) -> bool
    requires { tables_length ≤ length tables.now }
    ensures { result ≡ unused_zero state.now.words.now tables.now }
{
    state_rest(state) && tables_rest(state, tables)
}
