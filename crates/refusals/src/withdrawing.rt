// The refusals of withdrawing a join.
ghost use Rattle.std.specs.Prelude.{◌≡◌};
ghost use Rattle.model.specs.Refusals.{withdraw_refusal};
ghost use Rattle.state.specs.Lent.{memory};
ghost use Rattle.answers.specs.Numbers.{answered};

use crate::sentences::{judged, node};
use answers::error::Refusal;
use state::record;
use state::status::Status;

pub fn judge(state: &[u64], tables: &[u8], number: u64) -> Result<(), Refusal>
    ensures { answered result ≡ withdraw_refusal (memory state.now tables.now) number }
{
    let network = judged(state, tables)?;
    let x = node(&network, number)?;
    if x != network.nodes() {
        return Err(Refusal::NotHighest);
    }
    let status = Status {
        number: record::status(network.state, x),
    };
    if status.attached() {
        return Err(Refusal::HasAttached);
    }
    Ok(())
}
