// Pieces put at a place of lent memory. The answer is the place behind them, and the rest of the memory stays as it was.
// Lent bytes and a place, and no `Vec`: the C interface lends the memory, and there is no heap.
#![tactic(auto)]

ghost use Rattle.std.specs.Prelude.{◌+◌, ◌≤◌, [], ◌∷◌, length};
ghost use Rattle.putting.specs.Put.{Put};

pub fn piece(out: &mut [u8], at: usize, piece: &[u8]) -> usize
    requires { at + length piece.now ≤ length out.old }
    ensures { Put out.old at piece.now out.new result }
{
    let end = at + piece.len();
    out[at..end].copy_from_slice(piece);
    end
}

// The bytes of a piece of fixed length.
pub fn two(out: &mut [u8], at: usize, a: u8, b: u8) -> usize
    requires { at + 2 ≤ length out.old }
    ensures { Put out.old at (a ∷ b ∷ []) out.new result }
{
    piece(out, at, &[a, b])
}

pub fn four(out: &mut [u8], at: usize, a: u8, b: u8, c: u8, d: u8) -> usize
    requires { at + 4 ≤ length out.old }
    ensures { Put out.old at (a ∷ b ∷ c ∷ d ∷ []) out.new result }
{
    piece(out, at, &[a, b, c, d])
}
