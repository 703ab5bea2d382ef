// The words of the fixed length, taken from memory of just that length; those past it stay.
ghost use Rattle.std.specs.Prelude.{◌≡◌, ◌++◌, ◌≤◌, length, drop};
ghost use Rattle.model.specs.Memory.{state_length};

use crate::lent::STATE_LENGTH;

pub fn copy_out(state: &mut [u64], words: &[u64])
    requires state_length_in_bounds { state_length ≤ length state.old }
    requires words_len { length words.now ≡ state_length }
    ensures { state.new ≡ words.now ++ drop state_length state.old }
{
    state[..STATE_LENGTH].copy_from_slice(words);
}
