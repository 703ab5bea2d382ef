// A node's status by its number: document 01, "Identifiers and tables". The four are associated
// constants and no enum by a rule of the project; lent memory may hold any other number too.
ghost use Rattle.std.specs.Prelude.{◌≡◌, cond, ◌||◌, eqb};
ghost use Rattle.model.specs.Memory.{in_system, copying, waiting, notifying};

#[derive(Clone, Copy, Debug, PartialEq, Eq)]
pub struct Status {
    pub number: u64,
}

impl Status {
    // the paper's "settled"
    pub const IN_SYSTEM: u64 = 0;

    pub const COPYING: u64 = 1;

    pub const WAITING: u64 = 2;

    pub const NOTIFYING: u64 = 3;

    // copying or waiting
    pub fn joining(self) -> bool
        ensures { result ≡ (eqb self.number copying || eqb self.number waiting) }
    {
        self.number == Status::COPYING || self.number == Status::WAITING
    }

    // in system or notifying
    pub fn attached(self) -> bool
        ensures { result ≡ (eqb self.number in_system || eqb self.number notifying) }
    {
        self.number == Status::IN_SYSTEM || self.number == Status::NOTIFYING
    }

    // the level below which nobody learns the node: its attach level while it notifies, else 0
    pub fn floor(self, level: u64) -> u64
        ensures { result ≡ cond (eqb self.number notifying) level 0 }
    {
        if self.number == Status::NOTIFYING {
            level
        } else {
            0
        }
    }
}
