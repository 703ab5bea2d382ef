// What the programs over images share: from an input to an output (`specs/Answered.antt`); line one, and what is printed for an answer and for an image
// (`specs/Printed.antt`, `proofs/Printing.antt`); and that an input of which only the first 65,536 bytes are kept is read as the whole of it would be
// (`proofs/Overlong.antt`).
#![tactic(auto)]

ghost use Rattle.std.specs.Prelude.{◌≤◌, length, OnOk};
ghost use Rattle.std.specs.Fn.{FnOnceReturnsAt};
ghost use Rattle.putting.specs.Put.{Put};
ghost use Rattle.image_program.specs.Answered.{Reported};
ghost use Rattle.image_program.specs.Printed.{line_one};

use input::read_full;
use std::fmt::Display;
use std::io;
use std::io::{Read, Write};

// `refusal` and the number, 0 if none, at the start of out.
pub fn line_one(out: &mut [u8], number: u64) -> usize
    requires { 29 ≤ length out.old }
    ensures put { Put out.old 0 (line_one number) out.new result }
    ensures upper_bound { result ≤ 29 }
{
    text::line(out, 0, b"refusal ", number)
}

// Takes an image from the input, and writes the report of it and nothing else.
pub fn answer<R: Read, W: Write, T: Display + Drop, F: FnOnce(&[u8]) -> T>(
    input: &mut R,
    output: &mut W,
    report: F,
) -> io::Result<()>
    requires { F.IsAlwaysCallable report }
    ensures { OnOk result (Reported (FnOnceReturnsAt F.FnOnce report) T.output (R.remaining input.old) (R.remaining input.new) (W.contents output.old) (W.contents output.new)) }
{
    let mut image = [0u8; 65536];
    let n = read_full(input, &mut image);
    let report = report(&image[..n]);
    write!(output, "{report}")
}
