// The refusals of filling.
ghost use Rattle.std.specs.Prelude.{◌≡◌};
ghost use Rattle.model.specs.Refusals.{fill_refusal};
ghost use Rattle.state.specs.Lent.{memory};
ghost use Rattle.answers.specs.Numbers.{answered};

use crate::sentences::{all_in_system, judged};
use answers::error::Refusal;

pub fn judge(state: &[u64], tables: &[u8], out: &[u8]) -> Result<(), Refusal>
    ensures { answered result ≡ fill_refusal (memory state.now tables.now) out.now }
{
    let network = judged(state, tables)?;
    if !all_in_system(network.state) {
        return Err(Refusal::JoinInFlight);
    }
    if filling::measure::exceeds(&network, out.len()) {
        return Err(Refusal::ShortOutput);
    }
    Ok(())
}
