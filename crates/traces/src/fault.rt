// Where a trace has its first fault of a kind.
ghost use Rattle.std.specs.Prelude.{◌≡◌};

use answers::error::{Refusal, TraceRefused};

// Path and place, or path and step, counted from 1.
#[derive(Clone, Copy, Debug, PartialEq, Eq)]
pub struct Fault {
    pub path: usize,
    pub place: usize,
}

impl Fault {
    // A refusal that is about it.
    pub fn refused(self, refusal: Refusal) -> TraceRefused
        ensures { (result.refusal ≡ refusal) × (result.path ≡ self.path) × (result.place ≡ self.place) }
    {
        TraceRefused {
            refusal,
            path: self.path as u64,
            place: self.place as u64,
        }
    }
}
