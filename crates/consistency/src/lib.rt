// The check of K-consistency, on a sound network. An entry lacks nodes where it holds fewer than there
// are for it, K at most.
#![tactic(auto)]

pub mod having;
pub mod lack;

ghost use Rattle.std.specs.Prelude.{◌≡◌, ◌<◌, true, IfNone, IfSome};
ghost use Rattle.model.specs.Loops.{first_below};
ghost use Rattle.model.specs.Memory as memory;
ghost use Rattle.model.specs.Consistency as book;
ghost use Rattle.model.proofs.Status.{IsNode};
ghost use Rattle.consistency.specs.Answer.{FirstShort, book_verdict};
ghost use Rattle.consistency.specs.NodeSets.{Having, Sharing};

use crate::having::{ALL, among};
use crate::lack::lack;
use answers::verdict::ShortEntry;
use ident::digit;
use network::network::Network;
use state::sets::{EMPTY, add};

// The first digit of x's level i whose entry lacks a node. Those in `sharing` have the digits of x
// below.
fn short_digit(
    network: &Network<'_>,
    having: &[u64; 128],
    sharing: u64,
    x: usize,
    i: usize,
) -> Option<usize>
    requires having { Having network.now.state.now (memory.node_count network.now.state.now) having.now }
    requires sharing { Sharing network.now.state.now x i sharing }
    requires node { IsNode network.now.state.now x }
    requires level { i < memory.digits network.now.state.now }
    ensures none { IfNone result (book.level_whole network.now.state.now network.now.tables.now x i ≡ true) }
    ensures some { IfSome result (λ j. (j < memory.base network.now.state.now) × (j ≡ first_below (memory.base network.now.state.now) (book.entry_short network.now.state.now network.now.tables.now x i))) }
{
    let s = network.settings();
    let table = network.table(x);
    for j in 0..s.base {
        if 0 < lack(table, s.depth, i, j, among(having, sharing, i, j)) {
            return Some(j);
        }
    }
    None
}

// The first entry of x that lacks a node, by level and digit. Once nobody else shares the digits of x
// nothing is lacking above: x stands in its own entries, and for the others there is nobody.
fn short_entry(network: &Network<'_>, having: &[u64; 128], x: usize) -> Option<ShortEntry>
    requires having { Having network.now.state.now (memory.node_count network.now.state.now) having.now }
    requires node { IsNode network.now.state.now x }
    ensures none { IfNone result (book.node_whole network.now.state.now network.now.tables.now x ≡ true) }
    ensures some { IfSome result (FirstShort network.now.state.now network.now.tables.now x) }
{
    let id = network.id(x);
    let alone = add(EMPTY, x);
    let mut sharing = ALL;
    for i in 0..network.settings().digits {
        if let Some(j) = short_digit(network, having, sharing, x, i) {
            return Some(ShortEntry {
                node: x,
                level: i,
                digit: j,
            });
        }
        sharing = among(having, sharing, i, digit(id, i));
        if sharing == alone {
            return None;
        }
    }
    None
}

// None if every entry of every node holds as many nodes as there are for it, K at most: the network is
// K-consistent. Else the first entry that does not, by node, level and digit.
pub fn verdict(network: &Network<'_>) -> Option<ShortEntry>
    ensures { book_verdict result ≡ book.verdict network.now.state.now network.now.tables.now }
{
    let having = having::having(network.state);
    for k in 0..network.nodes() {
        if let Some(short) = short_entry(network, &having, k + 1) {
            return Some(short);
        }
    }
    None
}
