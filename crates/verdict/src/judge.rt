// From an input to an output.
ghost use Rattle.std.specs.Prelude.{◌≡◌, replicate, OnOk};
ghost use Rattle.model.specs.Calls.{read_call};
ghost use Rattle.state.specs.Lent.{memory};
ghost use Rattle.image_program.specs.Answered.{Answered};
ghost use Rattle.verdict.specs.Lines.{verdict_lines};
ghost use Rattle.verdict.specs.Reports.{report_text};

use crate::report::{Report, judged, unread};
use engine::{reading, verdict};
use state::lent::{STATE_LENGTH, TABLES_LENGTH};
use std::io;
use std::io::{Read, Write};

// Reads the image into the lent memory and judges what was read.
pub fn read_and_judged(state: &mut [u64], tables: &mut [u8], image: &[u8]) -> Report
    ensures text { report_text result ≡ verdict_lines state.old tables.old image.now }
    ensures tables_after { memory state.new tables.new ≡ (read_call (memory state.old tables.old) image.now).memory }
{
    if let Err(refused) = reading::read(state, tables, image) {
        return unread(refused);
    }
    match verdict::verdict(state, tables) {
        Err(refusal) => Report::Refused(refusal),
        Ok(short) => judged(short),
    }
}

// The same in memory of its own.
pub fn report(image: &[u8]) -> Report
    ensures { report_text result ≡ verdict_lines (replicate 520 0) (replicate 32768 0) image.now }
{
    let mut state = [0u64; STATE_LENGTH];
    let mut tables = [0u8; TABLES_LENGTH];
    read_and_judged(&mut state, &mut tables, image)
}

// Takes an image from the input, and writes its lines and nothing else.
pub fn judge<R: Read, W: Write>(input: &mut R, output: &mut W) -> io::Result<()>
    ensures { OnOk result (Answered (verdict_lines (replicate 520 0) (replicate 32768 0)) (R.remaining input.old) (R.remaining input.new) (W.contents output.old) (W.contents output.new)) }
{
    image_program::answer(input, output, report)
}
