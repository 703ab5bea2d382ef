// The verdict.
ghost use Rattle.std.specs.Prelude.{◌≡◌};
ghost use Rattle.model.specs.Calls.{verdict_call};
ghost use Rattle.state.specs.Lent.{memory};
ghost use Rattle.answers.specs.Fields.{verdict_fields};
ghost use Rattle.engine.specs.Outcomes.{leaves};

use answers::error::Refusal;
use answers::verdict::ShortEntry;

// Judges the tables: the first entry that falls short, or none. Refusals: 1, 2, 15.
pub fn verdict(state: &[u64], tables: &[u8]) -> Result<Option<ShortEntry>, Refusal>
    ensures { leaves (memory state.now tables.now) (verdict_fields result) ≡ verdict_call (memory state.now tables.now) }
{
    let network = refusals::verdict::judge(state, tables)?;
    Ok(consistency::verdict(&network))
}
