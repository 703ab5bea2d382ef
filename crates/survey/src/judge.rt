// From an input to an output.
ghost use Rattle.std.specs.Prelude.{◌≡◌, replicate, OnOk};
ghost use Rattle.model.specs.Calls.{read_call};
ghost use Rattle.state.specs.Lent.{memory};
ghost use Rattle.image_program.specs.Answered.{Answered};
ghost use Rattle.survey.specs.Lines.{survey_lines};
ghost use Rattle.survey.specs.Reports.{report_text};

use crate::counts::Survey;
use crate::report::Report;
use engine::{reading, survey};
use state::lent::{STATE_LENGTH, TABLES_LENGTH};
use state::{sets, settings};
use std::io;
use std::io::{Read, Write};

// Reads the image into the lent memory and surveys what was read.
pub fn read_and_surveyed(state: &mut [u64], tables: &mut [u8], image: &[u8]) -> Report
    ensures text { report_text result ≡ survey_lines state.old tables.old image.now }
    ensures tables_after { memory state.new tables.new ≡ (read_call (memory state.old tables.old) image.now).memory }
{
    if let Err(refused) = reading::read(state, tables, image) {
        return Report::Refused(refused.refusal);
    }
    match survey::survey(state, tables, sets::EMPTY) {
        Err(refusal) => Report::Refused(refusal),
        Ok(counts) => {
            let digits = settings::digits(state);
            Report::Surveyed(Survey { digits, counts })
        }
    }
}

// The same in memory of its own.
pub fn report(image: &[u8]) -> Report
    ensures { report_text result ≡ survey_lines (replicate 520 0) (replicate 32768 0) image.now }
{
    let mut state = [0u64; STATE_LENGTH];
    let mut tables = [0u8; TABLES_LENGTH];
    read_and_surveyed(&mut state, &mut tables, image)
}

// Takes an image from the input, and writes its lines and nothing else.
pub fn judge<R: Read, W: Write>(input: &mut R, output: &mut W) -> io::Result<()>
    ensures { OnOk result (Answered (survey_lines (replicate 520 0) (replicate 32768 0)) (R.remaining input.old) (R.remaining input.new) (W.contents output.old) (W.contents output.new)) }
{
    image_program::answer(input, output, report)
}
