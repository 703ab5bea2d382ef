// Both counts of every node.
ghost use Rattle.std.specs.Prelude.{◌+◌, ◌≤◌, length};
ghost use Rattle.model.specs.Image.{count_bytes, counts_bytes};
ghost use Rattle.model.proofs.Status.{IsNode};
ghost use Rattle.putting.specs.Put.{Put};

use network::network::Network;

// A node's requests and notices, a byte each.
fn counts(network: &Network<'_>, x: usize, out: &mut [u8], at: usize) -> usize
    requires node { IsNode network.now.state.now x }
    requires room { at + 2 ≤ length out.old }
    ensures { Put out.old at (count_bytes network.now.state.now x) out.new result }
{
    // `as`: the value is proved to fit, and `u8::try_from` would answer an error that cannot come.
    let r = network.record(x);
    putting::two(out, at, r.requests as u8, r.notices as u8)
}

// The section: the number of nodes in one byte, then the counts of each.
pub fn all(network: &Network<'_>, out: &mut [u8], at: usize) -> usize
    requires { at + length (counts_bytes network.now.state.now) ≤ length out.old }
    ensures { Put out.old at (counts_bytes network.now.state.now) out.new result }
{
    let n = network.nodes();
    let mut end = putting::piece(out, at, &[n as u8]);
    for x in 1..n + 1 {
        end = counts(network, x, out, end);
    }
    end
}
