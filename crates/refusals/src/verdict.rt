// The refusals of the verdict.
ghost use Rattle.std.specs.Prelude.{◌≡◌, IfOk};
ghost use Rattle.model.specs.Refusals.{verdict_refusal};
ghost use Rattle.state.specs.Lent.{memory};
ghost use Rattle.answers.specs.Numbers.{answered};

use crate::sentences::{all_in_system, judged};
use answers::error::Refusal;
use network::network::Network;

pub fn judge<'a>(state: &'a [u64], tables: &'a [u8]) -> Result<Network<'a>, Refusal>
    ensures refusal { answered result ≡ verdict_refusal (memory state.now tables.now) }
    ensures ok { IfOk result (λ n. (n.state.now ≡ state.now) × (n.tables.now ≡ tables.now)) }
{
    let network = judged(state, tables)?;
    if !all_in_system(network.state) {
        return Err(Refusal::JoinInFlight);
    }
    Ok(network)
}
