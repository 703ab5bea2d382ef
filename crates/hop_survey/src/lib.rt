// The hop survey of a sound network: one pass over the ordered pairs of different nodes, neither of
// them failed, each counted by its lookup. Place h − 1 of the counts is for the pairs that arrive in
// h hops, place 8 for the lost ones. Each of 64 nodes adds at most 64 to a count: none passes 4,096
// before a node's pairs, nor 4,160 among them.
#![tactic(auto)]

ghost use Rattle.std.specs.Prelude.{◌≡◌, ◌<◌, ◌≢◌};
ghost use Rattle.model.specs.Lookup.{lookup};
ghost use Rattle.model.specs.Survey.{is_pair, survey_counts};
ghost use Rattle.model.proofs.Status.{IsNode};
ghost use Rattle.state.specs.Loaded.{Numbered};
ghost use Rattle.hop_survey.specs.Counted.{Room, place_of, count_pair, count_from};

use network::network::Network;
use routing::next_hop;
use state::sets::has_either;

// Follows the lookup between two different nodes to its end, and answers where it is counted.
fn place(network: &Network<'_>, u: usize, z: usize, failed: u64) -> usize
    requires from { IsNode network.now.state.now u }
    requires to { IsNode network.now.state.now z }
    requires apart { u ≢ z }
    ensures value { result ≡ place_of (lookup network.now.state.now network.now.tables.now failed u z) }
    ensures upper_bound { result < 9 }
{
    let mut at = u;
    let mut hops = 0;
    // a `for` is no plainer: each turn goes on from the node that the turn before it found
    while at != z {
        let Some(next) = next_hop(network, at, z, failed).node else {
            return 8;
        };
        at = next;
        hops += 1;
    }
    hops - 1
}

// The two are different, and neither has failed.
fn is_pair(u: usize, z: usize, failed: u64) -> bool
    requires from { Numbered u }
    requires to { Numbered z }
    ensures { result ≡ is_pair failed u z }
{
    u != z && !has_either(failed, u, z)
}

// Two nodes, counted if they are such a pair.
fn count_pair(network: &Network<'_>, u: usize, z: usize, failed: u64, counts: &mut [u64; 9])
    requires from { IsNode network.now.state.now u }
    requires to { IsNode network.now.state.now z }
    requires room { Room 4160 counts.old }
    ensures { counts.new ≡ count_pair network.now.state.now network.now.tables.now failed u z counts.old }
{
    if is_pair(u, z, failed) {
        let at = place(network, u, z, failed);
        counts[at] += 1;
    }
}

// The pairs from u.
fn count_from(network: &Network<'_>, u: usize, failed: u64, counts: &mut [u64; 9])
    requires from { IsNode network.now.state.now u }
    requires room { Room 4096 counts.old }
    ensures { counts.new ≡ count_from network.now.state.now network.now.tables.now failed u counts.old }
{
    for k in 0..network.nodes() {
        count_pair(network, u, k + 1, failed, counts);
    }
}

// The counts of all pairs.
pub fn survey(network: &Network<'_>, failed: u64) -> [u64; 9]
    ensures { result ≡ survey_counts network.now.state.now network.now.tables.now failed }
{
    let mut counts = [0u64; 9];
    for k in 0..network.nodes() {
        count_from(network, k + 1, failed, &mut counts);
    }
    counts
}
