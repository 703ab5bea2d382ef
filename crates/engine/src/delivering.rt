// Delivering.
ghost use Rattle.std.specs.Prelude.{◌≡◌};
ghost use Rattle.model.specs.Calls.{deliver_call};
ghost use Rattle.state.specs.Lent.{memory};
ghost use Rattle.answers.specs.Fields.{delivery_fields};
ghost use Rattle.engine.specs.Outcomes.{leaves};

use answers::delivery::Delivery;
use answers::error::Refusal;

// Delivers the outstanding request of one node to another. Refusals: 1, 2, 9, 13, 14.
pub fn deliver(
    state: &mut [u64],
    tables: &mut [u8],
    sender: u64,
    receiver: u64,
) -> Result<Delivery, Refusal>
    ensures { leaves (memory state.new tables.new) (delivery_fields result) ≡ deliver_call (memory state.old tables.old) sender receiver }
{
    let (x, y) = refusals::delivering::judge(state, tables, sender, receiver)?;
    Ok(delivery::delivering::deliver(state, tables, x, y))
}
