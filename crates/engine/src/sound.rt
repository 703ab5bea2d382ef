// The check of a state.
ghost use Rattle.std.specs.Prelude.{◌≡◌};
ghost use Rattle.model.specs.Calls.{sound_call};
ghost use Rattle.state.specs.Lent.{memory};
ghost use Rattle.answers.specs.Fields.{done_fields};
ghost use Rattle.engine.specs.Outcomes.{leaves};

use answers::error::Refusal;

// The refusal that every call on this state would have first. Refusals: 1, 2.
pub fn sound(state: &[u64], tables: &[u8]) -> Result<(), Refusal>
    ensures { leaves (memory state.now tables.now) (done_fields result) ≡ sound_call (memory state.now tables.now) }
{
    refusals::sentences::judged(state, tables)?;
    Ok(())
}
