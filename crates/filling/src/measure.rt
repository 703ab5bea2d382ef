// How long the list of additions is: four bytes for each node that an entry lacks.
ghost use Rattle.std.specs.Prelude.{◌≡◌, ◌≤◌, ◌<◌, ltb, length};
ghost use Rattle.model.specs.Memory as memory;
ghost use Rattle.model.specs.Fill.{filling};
ghost use Rattle.model.proofs.Status.{IsNode};
ghost use Rattle.model.proofs.Filling.{Steady};
ghost use Rattle.consistency.specs.NodeSets.{Having, Sharing};
ghost use Rattle.filling.specs.Short.{level_short_by, node_short_by};

use consistency::having::{ALL, among, having};
use consistency::lack::lack;
use ident::digit;
use network::network::Network;
use state::sets::{EMPTY, add};

// What the entries of level i of x lack. Those in `sharing` have the digits of x below.
fn level(network: &Network<'_>, having: &[u64; 128], sharing: u64, x: usize, i: usize) -> usize
    requires steady { Steady network.now.state.now network.now.tables.now }
    requires having { Having network.now.state.now (memory.node_count network.now.state.now) having.now }
    requires sharing { Sharing network.now.state.now x i sharing }
    requires node { IsNode network.now.state.now x }
    requires level { i < memory.digits network.now.state.now }
    ensures { (result ≡ level_short_by network.now.state.now network.now.tables.now x i) × (result ≤ 64) }
{
    let s = network.settings();
    let table = network.table(x);
    let mut total = 0;
    for j in 0..s.base {
        total += lack(table, s.depth, i, j, among(having, sharing, i, j));
    }
    total
}

// What all its entries lack: nothing above once nobody else shares its digits.
fn node(network: &Network<'_>, having: &[u64; 128], x: usize) -> usize
    requires steady { Steady network.now.state.now network.now.tables.now }
    requires having { Having network.now.state.now (memory.node_count network.now.state.now) having.now }
    requires node { IsNode network.now.state.now x }
    ensures { (result ≡ node_short_by network.now.state.now network.now.tables.now x) × (result ≤ 512) }
{
    let id = network.id(x);
    let alone = add(EMPTY, x);
    let mut sharing = ALL;
    let mut total = 0;
    for i in 0..network.settings().digits {
        total += level(network, having, sharing, x, i);
        sharing = among(having, sharing, i, digit(id, i));
        if sharing == alone {
            return total;
        }
    }
    total
}

// The longest list, in bytes: to each of 64 nodes 84 nodes are added at most.
pub const LONGEST: usize = 21504;

// How many bytes the list of additions takes.
pub fn list(network: &Network<'_>) -> usize
    requires { Steady network.now.state.now network.now.tables.now }
    ensures { (result ≡ length (filling network.now.state.now network.now.tables.now).list) × (result ≤ 131072) }
{
    let sets = having(network.state);
    let mut total = 0;
    for k in 0..network.nodes() {
        total += node(network, &sets, k + 1);
    }
    4 * total
}

// It takes more bytes than there is room for. Where the longest list fits nothing is counted.
pub fn exceeds(network: &Network<'_>, room: usize) -> bool
    requires steady { Steady network.now.state.now network.now.tables.now }
    ensures { result ≡ ltb room (length (filling network.now.state.now network.now.tables.now).list) }
{
    room < LONGEST && room < list(network)
}
