// Packing an answer: bits 0 to 7 are the refusal, and each other field has the next eight bits, but a length or a place the next 32.
ghost use Rattle.std.specs.Prelude.{◌≡◌};
ghost use Rattle.packing.specs.Listed.{listed};
ghost use Rattle.packing.specs.Numbers.{first_five};
ghost use Rattle.packing.specs.Packed.{packed, Fits};

use crate::numbers::Numbers;

#[tactic(auto, unfolding(crate::specs::Packed::packed))]
pub fn pack(n: Numbers) -> u64
    requires { Fits (first_five (listed n)) }
    ensures { result ≡ packed (first_five (listed n)) }
{
    n.refusal + 256 * (n.fields[0] + 256 * (n.fields[1] + 256 * (n.fields[2] + 256 * n.fields[3])))
}
