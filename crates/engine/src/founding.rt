// Founding.
ghost use Rattle.std.specs.Prelude.{◌≡◌};
ghost use Rattle.model.specs.Calls.{found_call};
ghost use Rattle.state.specs.Lent.{memory};
ghost use Rattle.answers.specs.Fields.{done_fields};
ghost use Rattle.engine.specs.Outcomes.{leaves};

use answers::error::Refusal;

// Makes node 1 of a new network in the lent memory, whatever it held. Refusals: 1, 5, 7.
pub fn found(
    state: &mut [u64],
    tables: &mut [u8],
    base: u64,
    digits: u64,
    depth: u64,
    id: u32,
) -> Result<(), Refusal>
    ensures { leaves (memory state.new tables.new) (done_fields result) ≡ found_call (memory state.old tables.old) base digits depth id }
{
    refusals::founding::judge(state, tables, base, digits, depth, id)?;
    join::founding::found(
        state,
        tables,
        base as usize,
        digits as usize,
        depth as usize,
        id,
    );
    Ok(())
}
