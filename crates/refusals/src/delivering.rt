// The refusals of delivering.
ghost use Rattle.std.specs.Prelude.{◌≡◌, ◌&&◌, ◌||◌, eqb, IfOk};
ghost use Rattle.model.specs.Memory.{copying, waiting};
ghost use Rattle.model.specs.Join as book;
ghost use Rattle.model.specs.Refusals.{wait_held, deliver_refusal};
ghost use Rattle.model.proofs.Status.{IsNode};
ghost use Rattle.state.specs.Lent.{memory};
ghost use Rattle.answers.specs.Numbers.{answered};

use crate::sentences::{judged, node};
use answers::error::Refusal;
use network::network::Network;
use state::record::Node;
use state::status::Status;
use state::{record, sets};

// The node copies or waits, and its request goes to y.
fn asks_target(node: Node, y: usize) -> bool
    ensures { result ≡ ((eqb node.status copying || eqb node.status waiting) && eqb node.target y) }
{
    let status = Status {
        number: node.status,
    };
    status.joining() && node.target == y as u64
}

// x has a request to y outstanding: y is its target while it copies or waits, or is in its pending set.
fn outstanding(network: &Network<'_>, x: usize, y: usize) -> bool
    requires sender { IsNode network.now.state.now x }
    requires receiver { IsNode network.now.state.now y }
    ensures { result ≡ book.outstanding network.now.state.now x y }
{
    let node = network.record(x);
    asks_target(node, y) || sets::has(node.pending, y)
}

// 14: x waits, and y is not in system.
fn wait_held(network: &Network<'_>, x: usize, y: usize) -> bool
    requires sender { IsNode network.now.state.now x }
    requires receiver { IsNode network.now.state.now y }
    ensures { result ≡ wait_held network.now.state.now x y }
{
    record::status(network.state, x) == Status::WAITING
        && record::status(network.state, y) != Status::IN_SYSTEM
}

// The sender and the receiver, as nodes.
pub fn judge(
    state: &[u64],
    tables: &[u8],
    sender: u64,
    receiver: u64,
) -> Result<(usize, usize), Refusal>
    ensures refusal { answered result ≡ deliver_refusal (memory state.now tables.now) sender receiver }
    ensures ok { IfOk result (λ nodes. (nodes.0 ≡ sender) × (nodes.1 ≡ receiver)) }
{
    let network = judged(state, tables)?;
    let x = node(&network, sender)?;
    let y = node(&network, receiver)?;
    if !outstanding(&network, x, y) {
        return Err(Refusal::NotOutstanding);
    }
    if wait_held(&network, x, y) {
        return Err(Refusal::Held);
    }
    Ok((x, y))
}
