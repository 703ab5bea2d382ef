// Whether all places of a part are zero: gathered by `or` with no early exit, so that wide instructions serve.
ghost use Rattle.std.specs.Prelude.{◌≡◌, ◌&&◌, Bool, true, eqb};
ghost use Rattle.std.specs.List.{list_all};

// A place of lent memory, a word or a byte, as a number that may be zero.
pub trait Place: Copy {
    ghost zero: { Self };

    ghost is_zero: { Self → Bool };

    fn zero() -> Self
        ensures value { result ≡ zero }
        ensures is_zero { is_zero result ≡ true };

    fn or(self, other: Self) -> Self
        ensures { is_zero result ≡ (is_zero self && is_zero other) };

    fn is_zero(self) -> bool
        ensures { result ≡ is_zero self };
}

impl Place for u64 {
    ghost zero = { 0 };

    ghost is_zero = { λ n. eqb n 0 };

    fn zero() -> u64 {
        0
    }

    fn or(self, other: u64) -> u64 {
        self | other
    }

    fn is_zero(self) -> bool {
        self == 0
    }
}

impl Place for u8 {
    ghost zero = { 0 };

    ghost is_zero = { λ n. eqb n 0 };

    fn zero() -> u8 {
        0
    }

    fn or(self, other: u8) -> u8 {
        self | other
    }

    fn is_zero(self) -> bool {
        self == 0
    }
}

pub fn all_zero<T: Place>(part: &[T]) -> bool
    ensures { result ≡ list_all T.is_zero part.now }
{
    let mut gathered = T::zero();
    for place in part {
        gathered = gathered.or(*place);
    }
    gathered.is_zero()
}
