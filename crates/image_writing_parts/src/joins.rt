// The joins under way, 20 bytes each, behind their count.
ghost use Rattle.std.specs.Prelude.{◌≡◌, ◌+◌, ◌≤◌, ◌<◌, length};
ghost use Rattle.model.specs.Nodes.{count_nodes};
ghost use Rattle.model.specs.Image.{under_way, join_fields, join_bytes, joins_bytes};
ghost use Rattle.model.proofs.Status.{IsNode};
ghost use Rattle.state.specs.Loaded.{book_node};
ghost use Rattle.putting.specs.Put.{Put};
ghost use Rattle.image_writing_parts.specs.Joins.{Bytes};

use network::network::Network;
use state::record::Node;
use state::status::Status;

// The 20 bytes of a join: the node, its status, its attach level, its target, its pending and its
// notified set, each set's low byte first.
fn fields(x: usize, r: Node, out: &mut [u8], at: usize) -> usize
    requires x_bound { x < 256 }
    requires bytes { Bytes (book_node r) }
    requires room { at + 20 ≤ length out.old }
    ensures { Put out.old at (join_fields x (book_node r)) out.new result }
{
    // `as`: the value is proved to fit, and `u8::try_from` would answer an error that cannot come.
    let pending = putting::four(
        out,
        at,
        x as u8,
        r.status as u8,
        r.level as u8,
        r.target as u8,
    );
    let notified = putting::piece(out, pending, &r.pending.to_le_bytes());
    putting::piece(out, notified, &r.notified.to_le_bytes())
}

// The join of a node; nothing for a node in system.
fn join(network: &Network<'_>, x: usize, out: &mut [u8], at: usize) -> usize
    requires node { IsNode network.now.state.now x }
    requires room { at + length (join_bytes network.now.state.now x) ≤ length out.old }
    ensures { Put out.old at (join_bytes network.now.state.now x) out.new result }
{
    let r = network.record(x);
    if r.status == Status::IN_SYSTEM {
        return at;
    }
    fields(x, r, out, at)
}

// The section: their count in one byte, then each of them, by node.
pub fn all(network: &Network<'_>, count: usize, out: &mut [u8], at: usize) -> usize
    requires count_value { count ≡ count_nodes network.now.state.now (under_way network.now.state.now) }
    requires count_bound { count ≤ 64 }
    requires room { at + length (joins_bytes network.now.state.now) ≤ length out.old }
    ensures { Put out.old at (joins_bytes network.now.state.now) out.new result }
{
    let mut end = putting::piece(out, at, &[count as u8]);
    for x in 1..network.nodes() + 1 {
        end = join(network, x, out, end);
    }
    end
}
