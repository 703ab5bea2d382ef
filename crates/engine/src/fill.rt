// Filling short tables.
ghost use Rattle.std.specs.Prelude.{◌≡◌};
ghost use Rattle.model.specs.Calls.{fill_call};
ghost use Rattle.state.specs.Lent.{memory};
ghost use Rattle.answers.specs.Fields.{number_fields};
ghost use Rattle.engine.specs.Outcomes.{writes};

use answers::error::Refusal;

// Fills every short entry, lists the additions in out, and answers how many they are. Refusals: 1, 2, 15, 16.
pub fn fill(state: &[u64], tables: &mut [u8], out: &mut [u8]) -> Result<usize, Refusal>
    ensures { writes (memory state.now tables.new) out.new (number_fields result) ≡ fill_call (memory state.now tables.old) out.old }
{
    refusals::fill::judge(state, tables, out)?;
    let length = filling::fill(state, tables, out);
    Ok(length / 4)
}
