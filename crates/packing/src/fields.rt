// The fields of each answer, as at most four numbers.
ghost use Rattle.std.specs.Prelude.{◌≡◌, ℕ, cond, List, [], ◌∷◌};
ghost use Rattle.answers.specs.Fields.{taken_fields, short_fields};
ghost use Rattle.packing.specs.Numbers.{first_four};

use answers::delivery::{Delivery, Kind};
use answers::lookup::Lookup;
use answers::verdict::ShortEntry;

// An answer of at most four fields; its numbers are zero behind the last.
pub trait Fields: Copy {
    ghost fields: { Self → List ℕ };

    fn numbers(self) -> [u64; 4]
        ensures { result ≡ first_four (fields self) };
}

impl Fields for () {
    ghost fields = { λ a. [] };

    fn numbers(self) -> [u64; 4] {
        [0; 4]
    }
}

// The number of a node, of additions or of bytes.
impl Fields for usize {
    ghost fields = { λ n. n ∷ [] };

    fn numbers(self) -> [u64; 4] {
        [self as u64, 0, 0, 0]
    }
}

// 1 copied, 2 sent on, 3 attached, 4 notified; the level where it attached; 1 if the sender settled.
impl Fields for Delivery {
    ghost fields = { taken_fields };

    fn numbers(self) -> [u64; 4] {
        let settled = self.settled as u64;
        match self.kind {
            Kind::Copied => [1, 0, settled, 0],
            Kind::SentOn => [2, 0, settled, 0],
            Kind::Attached(level) => [3, level, settled, 0],
            Kind::Notified => [4, 0, settled, 0],
        }
    }
}

// 1 for arrived or 0 for lost, the hops and the last node.
impl Fields for Lookup {
    ghost fields = { λ l. cond l.arrived 1 0 ∷ l.hops ∷ l.last ∷ [] };

    fn numbers(self) -> [u64; 4] {
        [self.arrived as u64, self.hops as u64, self.last as u64, 0]
    }
}

// 1 where no entry falls short, or 0 and node, level and digit of the first that does.
impl Fields for Option<ShortEntry> {
    ghost fields = { short_fields };

    fn numbers(self) -> [u64; 4] {
        match self {
            None => [1, 0, 0, 0],
            Some(short) => [0, short.node as u64, short.level as u64, short.digit as u64],
        }
    }
}
