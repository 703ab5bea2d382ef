// Withdrawing a join.
ghost use Rattle.std.specs.Prelude.{◌≡◌};
ghost use Rattle.model.specs.Calls.{withdraw_call};
ghost use Rattle.state.specs.Lent.{memory};
ghost use Rattle.answers.specs.Fields.{done_fields};
ghost use Rattle.engine.specs.Outcomes.{leaves};

use answers::error::Refusal;

// Takes the highest-numbered node away while it copies or waits. Refusals: 1, 2, 9, 19, 20.
pub fn withdraw(state: &mut [u64], tables: &mut [u8], node: u64) -> Result<(), Refusal>
    ensures { leaves (memory state.new tables.new) (done_fields result) ≡ withdraw_call (memory state.old tables.old) node }
{
    refusals::withdrawing::judge(state, tables, node)?;
    join::withdrawing::withdraw(state, tables);
    Ok(())
}
