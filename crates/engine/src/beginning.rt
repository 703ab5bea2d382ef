// Beginning a join.
ghost use Rattle.std.specs.Prelude.{◌≡◌};
ghost use Rattle.model.specs.Calls.{begin_call};
ghost use Rattle.state.specs.Lent.{memory};
ghost use Rattle.answers.specs.Fields.{number_fields};
ghost use Rattle.engine.specs.Outcomes.{leaves};

use answers::error::Refusal;

// Adds a node that is to join by the gateway, and answers its number. Refusals: 1, 2, 7, 8, 9, 11, 12.
pub fn begin(state: &mut [u64], tables: &mut [u8], id: u32, gateway: u64) -> Result<usize, Refusal>
    ensures { leaves (memory state.new tables.new) (number_fields result) ≡ begin_call (memory state.old tables.old) id gateway }
{
    let g = refusals::beginning::judge(state, tables, id, gateway)?;
    Ok(join::beginning::begin(state, tables, id, g))
}
