// The entries of a level: each holds K nodes at most, all of them qualified and no two equal, in its slots from 0 on with no gap between.
ghost use Rattle.std.specs.Prelude.{◌≡◌, ◌<◌};
ghost use Rattle.model.specs.Loops.{all_below};
ghost use Rattle.model.specs.Memory as memory;
ghost use Rattle.model.specs.Sound.{may_stand};
ghost use Rattle.model.proofs.Status.{IsNode};
ghost use Rattle.soundness_tables.specs.TableFacts.{slot_exact, entry_exact};

use crate::row::Row;
use soundness_ids::member::Member;

// In x's table stand x and attached nodes; most nodes are attached.
fn may_stand(owner: &Member<'_>, u: usize) -> bool
    requires { IsNode owner.now.state.words.now u }
    ensures { result ≡ may_stand owner.now.state.words.now owner.now.number u }
{
    owner.state.is_attached(u) || u == owner.number
}

// Slot k of entry j is empty, or is below K, follows a filled one and holds a node that may stand there, is qualified and is in no slot before it.
#[tactic(auto, unfolding(crate::specs::TableFacts::slot_exact))]
fn is_slot_sound(row: &Row<'_>, j: usize, k: usize) -> bool
    requires digit { j < 16 }
    requires slot { k < 4 }
    ensures { let table = row.now.table in
        let s = table.owner.state.words.now in
        result ≡ slot_exact s table.owner.number table.bytes.now row.now.level j k }
{
    let owner = row.table.owner;
    let settings = owner.state.settings;
    let u = row.slot(j, k);
    u == 0
        || (k < settings.depth
            && u <= settings.nodes
            && may_stand(&owner, u)
            && row.is_qualified(j, u)
            && row.has_no_gap_before(j, k)
            && row.is_new_at(j, u, k))
}

// All four slots of entry j; most entries are empty.
fn is_entry_sound(row: &Row<'_>, j: usize) -> bool
    requires { j < 16 }
    ensures { let table = row.now.table in
        let s = table.owner.state.words.now in
        result ≡ entry_exact s table.owner.number table.bytes.now row.now.level j }
{
    tables::entry::empty(row.table.bytes, row.level, j) || (0..4).all(|k| is_slot_sound(row, j, k))
}

// The entries of a level.
pub fn all(row: &Row<'_>) -> bool
    ensures { let table = row.now.table in
        let s = table.owner.state.words.now in
        let is_sound = entry_exact s table.owner.number table.bytes.now row.now.level in
        result ≡ all_below (memory.base s) is_sound }
{
    (0..row.table.owner.state.settings.base).all(|j| is_entry_sound(row, j))
}
