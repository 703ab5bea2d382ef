// From an input to an output, and to a file.
ghost use Rattle.std.specs.Prelude.{◌≡◌, OnOk, IfOk, ◌*◌, ◌≤◌, length, get_or, replicate};
ghost use Rattle.std.specs.Io.KnownBytes.{Appends};
ghost use Rattle.state.specs.Lent.{memory};
ghost use Rattle.answers.specs.Numbers.{answered};
ghost use Rattle.additions.specs.Listed.{blank};
ghost use Rattle.image_program.specs.Answered.{Answered};
ghost use Rattle.fill.specs.Lines.{done_text, fill_lines, read_and_filled};
ghost use Rattle.fill.specs.Reports.{report_text};

use crate::report::{Report, reported};
use additions::blank;
use answers::error::Refusal;
use engine::{fill, reading};
use image_fields::header;
use input::read_full;
use state::lent::{STATE_LENGTH, TABLES_LENGTH};
use std::io;
use std::io::{Read, Write};

// Reads the image into the lent memory and fills what was read: how many additions the list has.
pub fn filled(
    state: &mut [u64],
    tables: &mut [u8],
    image: &[u8],
    list: &mut [u8],
) -> Result<usize, Refusal>
    requires { list.old ≡ blank }
    ensures text { done_text result list.new ≡ fill_lines state.old tables.old image.now }
    ensures tables_after { memory state.new tables.new ≡ (read_and_filled (memory state.old tables.old) image.now).memory }
    ensures refusal_value { answered result ≡ get_or (read_and_filled (memory state.old tables.old) image.now).answer 0 0 }
    ensures listed { IfOk result (λ n. 4 * n ≤ length list.new) }
{
    if let Err(refused) = reading::read(state, tables, image) {
        return Err(refused.refusal);
    }
    fill::fill(state, tables, list)
}

fn print<W: Write>(output: &mut W, report: Report<'_>) -> io::Result<()>
    ensures { OnOk result (Appends (W.contents output.old) (W.contents output.new) (report_text report.entry)) }
{
    write!(output, "{report}")?;
    output.flush()
}

// Takes an image from the input, and writes its lines and nothing else; what was filled it gives to be saved, with the image's version, also where the
// output takes no lines. The driver of `image_program` serves no program that goes on with what it made of the image.
pub fn judge<R: Read, W: Write, S: FnOnce(&[u64], &[u8], u64) -> io::Result<()>>(
    input: &mut R,
    output: &mut W,
    save: S,
) -> io::Result<()>
    requires { S.IsAlwaysCallable save }
    ensures { OnOk result (Answered (fill_lines (replicate 520 0) (replicate 32768 0)) (R.remaining input.old) (R.remaining input.new) (W.contents output.old) (W.contents output.new)) }
{
    let mut image = [0u8; 65536];
    let n = read_full(input, &mut image);
    let mut state = [0u64; STATE_LENGTH];
    let mut tables = [0u8; TABLES_LENGTH];
    let mut list = blank();
    let filled = filled(&mut state, &mut tables, &image[..n], &mut list);
    let printed = print(output, reported(filled, &list));
    if filled.is_ok() {
        save(&state, &tables, header::byte(&image, 1) as u64)?;
    }
    printed
}
