// Who has which digit: of 128 sets of nodes the one at 16i + j is for digit j at level i. Who
// qualifies for entry (i, j) of x shares the low i digits of x and has digit j before them.
ghost use Rattle.std.specs.Prelude.{◌≡◌, ◌≤◌, ◌<◌, get_or};
ghost use Rattle.std.specs.Int.Bits.{bit_and};
ghost use Rattle.model.specs.Loops.{each_below};
ghost use Rattle.model.specs.Memory as memory;
ghost use Rattle.model.proofs.Status.{IsNode};
ghost use Rattle.state.specs.Loaded.{Numbered};
ghost use Rattle.consistency.specs.NodeSets.{IdsReadable, place, note_at, Having, Sharing};

use ident::digit;
use state::sets::add;
use state::{record, settings};

// The set that has every node.
pub const ALL: u64 = 18446744073709551615;

// Node y with this id stands in the set of each of its digits.
fn note(sets: &mut [u64; 128], digits: usize, id: u32, y: usize)
    requires digits_bound { digits ≤ 8 }
    requires numbered { Numbered y }
    ensures { sets.new ≡ each_below digits (note_at id y) sets.old }
{
    for i in 0..digits {
        let at = 16 * i + digit(id, i);
        sets[at] = add(sets[at], y);
    }
}

// The sets of all nodes, of a state whose tables may be half written.
pub fn having(state: &[u64]) -> [u64; 128]
    requires { IdsReadable state.now }
    ensures { Having state.now (memory.node_count state.now) result }
{
    let s = settings::load(state);
    let mut sets = [0u64; 128];
    for k in 0..s.nodes {
        note(&mut sets, s.digits, record::id(state, k + 1) as u32, k + 1);
    }
    sets
}

// Those of some nodes that have digit j at level i.
pub fn among(having: &[u64; 128], nodes: u64, i: usize, j: usize) -> u64
    requires i_bound { i < 8 }
    requires j_bound { j < 16 }
    ensures { result ≡ bit_and nodes (get_or having.now (place i j) 0) }
{
    nodes & having[16 * i + j]
}

// Those that share the low i digits of x.
pub fn sharing(state: &[u64], having: &[u64; 128], x: usize, i: usize) -> u64
    requires ids_readable { IdsReadable state.now }
    requires having { Having state.now (memory.node_count state.now) having.now }
    requires node { IsNode state.now x }
    requires i_bound { i ≤ memory.digits state.now }
    ensures { Sharing state.now x i result }
{
    let id = record::id(state, x) as u32;
    let mut nodes = ALL;
    for k in 0..i {
        nodes = among(having, nodes, k, digit(id, k));
    }
    nodes
}
