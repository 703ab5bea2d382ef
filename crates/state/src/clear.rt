// The first places of lent memory set to zero; those past them stay.
ghost use Rattle.std.specs.Prelude.{◌≡◌, ◌++◌, ◌≤◌, length, drop, replicate};

use crate::zero::Place;

pub fn clear<T: Place>(memory: &mut [T], n: usize)
    requires { n ≤ length memory.old }
    ensures { memory.new ≡ replicate n T.zero ++ drop n memory.old }
{
    for k in 0..n {
        memory[k] = T::zero();
    }
}
