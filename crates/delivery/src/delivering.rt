// The delivery of a request, by the status of its sender.
ghost use Rattle.std.specs.Prelude.{◌≡◌};
ghost use Rattle.model.specs.Join.{delivery};
ghost use Rattle.model.proofs.Sound.{Sound};
ghost use Rattle.model.proofs.Sender.{CanDeliver};
ghost use Rattle.delivery_parts.specs.Answers.{outcome, took_delivery};

use crate::copying::deliver_copying;
use crate::notifying::deliver_notifying;
use answers::delivery::Delivery;
use delivery_waiting::deliver_waiting;
use state::record;
use state::status::Status;

// The delivery of an outstanding request from x to y. A node in system has none, and no other number
// is a status, so the last arm is never taken.
pub fn deliver(state: &mut [u64], tables: &mut [u8], x: usize, y: usize) -> Delivery
    requires sound { Sound state.old tables.old }
    requires can_deliver { CanDeliver state.old x y }
    ensures { outcome state.new tables.new result ≡ took_delivery state.old tables.old x y (delivery state.old tables.old x y) }
{
    let status = record::status(state, x);
    match status {
        Status::COPYING => deliver_copying(state, tables, x, y),
        Status::WAITING => deliver_waiting(state, tables, x, y),
        Status::NOTIFYING => deliver_notifying(state, tables, x, y),
        Status::IN_SYSTEM | 4..=0xffff_ffff_ffff_ffff => unreachable!(),
    }
}
