// The refusals of beginning a join.
ghost use Rattle.std.specs.Prelude.{◌≡◌, IfOk};
ghost use Rattle.model.specs.Refusals.{id_taken, begin_refusal};
ghost use Rattle.state.specs.Lent.{memory};
ghost use Rattle.answers.specs.Numbers.{answered};

use crate::sentences::{judged, node};
use answers::error::Refusal;
use ident::valid_id;
use network::network::Network;
use state::record;
use state::status::Status;

// 8: some node has this id.
fn id_taken(network: &Network<'_>, id: u32) -> bool
    ensures { result ≡ id_taken network.now.state.now id }
{
    (1..network.nodes() + 1).any(|x| network.id(x) == id)
}

// Answers the gateway, which is a node.
pub fn judge(state: &[u64], tables: &[u8], id: u32, gateway: u64) -> Result<usize, Refusal>
    ensures refusal { answered result ≡ begin_refusal (memory state.now tables.now) id gateway }
    ensures ok { IfOk result (λ g. g ≡ gateway) }
{
    let network = judged(state, tables)?;
    let s = network.settings();
    if !valid_id(s.base, s.digits, id) {
        return Err(Refusal::BadId);
    }
    if id_taken(&network, id) {
        return Err(Refusal::IdTaken);
    }
    let g = node(&network, gateway)?;
    if s.nodes == 64 {
        return Err(Refusal::Full);
    }
    if record::status(network.state, g) != Status::IN_SYSTEM {
        return Err(Refusal::GatewayNotInSystem);
    }
    Ok(g)
}
