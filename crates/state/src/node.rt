// What the check asks of one node.
ghost use Rattle.std.specs.Prelude.{◌≡◌};
ghost use Rattle.model.specs.Memory.{id_of, is_in_system, is_attached};
ghost use Rattle.model.proofs.Status.{IsNode};
ghost use Rattle.state.specs.Checked.{Ranged, Identified};

use crate::record;
use crate::status::Status;

// A valid id fits 32 bits.
pub fn id(state: &[u64], x: usize) -> u32
    requires identified { Identified state.now }
    requires node { IsNode state.now x }
    ensures { result ≡ id_of state.now x }
{
    record::id(state, x) as u32
}

pub fn in_system(state: &[u64], x: usize) -> bool
    requires ranged { Ranged state.now }
    requires node { IsNode state.now x }
    ensures { result ≡ is_in_system state.now x }
{
    record::status(state, x) == Status::IN_SYSTEM
}

pub fn attached(state: &[u64], x: usize) -> bool
    requires ranged { Ranged state.now }
    requires node { IsNode state.now x }
    ensures { result ≡ is_attached state.now x }
{
    let status = Status {
        number: record::status(state, x),
    };
    status.attached()
}
