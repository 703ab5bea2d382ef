// The node that an entry is filled with next.
ghost use Rattle.std.specs.Prelude.{◌≡◌, not, ◌&&◌, ℕ, ◌≤◌, eqb, IfNone, IfSome};
ghost use Rattle.model.specs.Memory.{has_node};
ghost use Rattle.model.specs.Fill.{lowest_absent, short_by};
ghost use Rattle.model.proofs.Filling.{Steady};
ghost use Rattle.tables.specs.Places as places;
ghost use Rattle.tables.specs.Places.{Numbers};
ghost use Rattle.filling.specs.NodeSets.{Rest, First};

use crate::entry::Entry;
use state::sets::{is_empty, remove};
use state::settings;
use tables::part;

// The set without the node in a slot, which may be empty.
fn without(nodes: u64, u: usize) -> u64
    requires { u ≤ 64 }
    ensures { (y : ℕ) → 1 ≤ y → has_node result y ≡ (has_node nodes y && not (eqb u y)) }
{
    if u == 0 {
        return nodes;
    }
    remove(nodes, u)
}

// The nodes of the set that do not stand in entry (i, j).
fn absent(table: &[u8], depth: usize, i: usize, j: usize, nodes: u64) -> u64
    requires entry { places.Entry table.now depth i j }
    requires numbers { Numbers table.now depth i j }
    ensures { Rest depth table.now i j nodes result }
{
    let entry = 64 * i + 4 * j;
    let mut rest = nodes;
    for k in 0..depth {
        rest = without(rest, table[entry + k] as usize);
    }
    rest
}

// The lowest node of a set.
fn first(nodes: u64) -> Option<usize>
    ensures none { IfNone result (nodes ≡ 0) }
    ensures some { IfSome result (λ y. First nodes y) }
{
    if is_empty(nodes) {
        return None;
    }
    Some(u64::trailing_zeros(nodes) as usize + 1)
}

// The lowest-numbered node that is absent from the entry of those that qualify: there is one, since the entry is short.
pub fn lowest(entry: &Entry<'_>, tables: &[u8]) -> usize
    requires steady { Steady entry.now.state.now tables.now }
    requires short { 1 ≤ short_by entry.now.state.now tables.now entry.now.node entry.now.level entry.now.digit }
    ensures { (result ≡ lowest_absent entry.now.state.now tables.now entry.now.node entry.now.level entry.now.digit) × (result ≤ 64) }
{
    let depth = settings::load(entry.state).depth;
    let table = part::lent(tables, entry.node);
    let missing = absent(table, depth, entry.level, entry.digit, entry.qualified);
    first(missing).unwrap()
}
