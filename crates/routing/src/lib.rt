// Lookup by suffix routing, and the steps that a path of another router may go, on a sound network.
// `failed` is the set of failed nodes; a number in it that no node has means nothing.
#![tactic(auto)]

ghost use Rattle.std.specs.Prelude.{◌≡◌, ◌≢◌, IfSome};
ghost use Rattle.model.specs.Lookup as book;
ghost use Rattle.model.specs.Traces.{may_go};
ghost use Rattle.model.proofs.Status.{IsNode};
ghost use Rattle.tables.specs.NextHop.{book_next_hop};
ghost use Rattle.routing.specs.Answer.{book_lookup};
ghost use Rattle.routing.specs.Hop.{HopEntry};

use answers::lookup::Lookup;
use ident::{common_suffix, digit};
use network::network::Network;
use tables::entry;
use tables::entry::NextHop;

// An entry of a table.
#[derive(Clone, Copy, Debug, PartialEq, Eq)]
struct Entry {
    level: usize,
    digit: usize,
}

// The entry of u in which a lookup to z finds its next hop: that of z's digit at the level of their
// common suffix.
fn hop_entry(network: &Network<'_>, u: usize, z: usize) -> Entry
    requires from { IsNode network.now.state.now u }
    requires to { IsNode network.now.state.now z }
    ensures { HopEntry network.now.state.now u z result }
{
    let to = network.id(z);
    let level = common_suffix(network.settings().digits, network.id(u), to);
    Entry {
        level,
        digit: digit(to, level),
    }
}

// Where a lookup at u goes next: to the frontmost node that has not failed of u's entry for z at the
// level of their common suffix, if one is left. And how many failed ones it passes over.
pub fn next_hop(network: &Network<'_>, u: usize, z: usize, failed: u64) -> NextHop
    requires from { IsNode network.now.state.now u }
    requires to { IsNode network.now.state.now z }
    requires apart { u ≢ z }
    ensures hop { book_next_hop result ≡ book.next_hop network.now.state.now network.now.tables.now failed u z }
    ensures node { IfSome result.node (IsNode network.now.state.now) }
{
    let e = hop_entry(network, u, z);
    let depth = network.settings().depth;
    entry::frontmost(network.table(u), depth, e.level, e.digit, failed)
}

// Whether a path to z may go from u to v: it does not go on past z, and v stands in the entry in
// which a lookup at u finds its next hop.
pub fn may_go(network: &Network<'_>, u: usize, v: usize, z: usize) -> bool
    requires from { IsNode network.now.state.now u }
    requires next { IsNode network.now.state.now v }
    requires to { IsNode network.now.state.now z }
    ensures { result ≡ may_go network.now.state.now network.now.tables.now u v z }
{
    if u == z {
        return false;
    }
    let e = hop_entry(network, u, z);
    let depth = network.settings().depth;
    entry::holds(network.table(u), depth, e.level, e.digit, v)
}

// A lookup that starts at its destination has arrived. One with no next hop is lost where it is.
// Any other is the lookup from the next hop, with one hop more.
pub fn lookup(network: &Network<'_>, u: usize, z: usize, failed: u64) -> Lookup
    requires from { IsNode network.now.state.now u }
    requires to { IsNode network.now.state.now z }
    ensures { book_lookup result ≡ book.lookup network.now.state.now network.now.tables.now failed u z }
{
    if u == z {
        return Lookup {
            arrived: true,
            hops: 0,
            last: u,
        };
    }
    let Some(next) = next_hop(network, u, z, failed).node else {
        return Lookup {
            arrived: false,
            hops: 0,
            last: u,
        };
    };
    let further = lookup(network, next, z, failed);
    Lookup {
        hops: further.hops + 1,
        ..further
    }
}
