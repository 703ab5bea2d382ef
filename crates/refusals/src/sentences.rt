// Sentences that several calls judge: document 01, "What a call declines".
ghost use Rattle.std.specs.Prelude.{◌≡◌, IfOk, IfErr, false};
ghost use Rattle.model.specs.Memory.{is_in_system};
ghost use Rattle.model.specs.Refusals.{state_refusal};
ghost use Rattle.model.specs.Nodes.{is_node, all_nodes};
ghost use Rattle.model.proofs.Status.{IsNode};
ghost use Rattle.state.specs.Lent.{memory};
ghost use Rattle.answers.specs.Numbers.{answered};
ghost use Rattle.answers.specs.declared.error.Refusal.TheVariants.{NoSuchNode};
ghost use Rattle.refusals.specs.Refused.{NodesPlaced};

use answers::error::Refusal;
use network::network::Network;
use soundness::sound;
use state::status::Status;
use state::{lent, record, settings};

// 1, memory that is too short, and 2, a state that is not sound.
pub fn judged<'a>(state: &'a [u64], tables: &'a [u8]) -> Result<Network<'a>, Refusal>
    ensures refusal { answered result ≡ state_refusal (memory state.now tables.now) }
    ensures ok { IfOk result (λ n. (n.state.now ≡ state.now) × (n.tables.now ≡ tables.now)) }
{
    if lent::short(state, tables) {
        return Err(Refusal::ShortMemory);
    }
    if !sound(state, tables) {
        return Err(Refusal::Unsound);
    }
    Ok(Network { state, tables })
}

// 9, no node has this number.
pub fn node(network: &Network<'_>, x: u64) -> Result<usize, Refusal>
    ensures ok { IfOk result (λ k. (k ≡ x) × IsNode network.now.state.now x) }
    ensures none { IfErr result (λ e. (e ≡ NoSuchNode) × (is_node network.now.state.now x ≡ false)) }
{
    if !network.is_node(x) {
        return Err(Refusal::NoSuchNode);
    }
    Ok(x as usize)
}

// Not 15: every node is in system.
pub fn all_in_system(state: &[u64]) -> bool
    requires { NodesPlaced state.now }
    ensures { result ≡ all_nodes state.now (is_in_system state.now) }
{
    let nodes = settings::load(state).nodes;
    (1..nodes + 1).all(|x| record::status(state, x) == Status::IN_SYSTEM)
}
