// What the program says of an image: the refusal; where it is 0, the verdict and the entry that falls short; where it is about a record, its place.
// A number is given room for 20 digits: line one has at most 29 bytes, a record's line 28, and a verdict's 98.
ghost use Rattle.std.specs.Prelude.{◌≡◌, Some, [], ◌∷◌, ◌+◌, ◌++◌, ◌≤◌, length};
ghost use Rattle.putting.specs.Put.{Put};
ghost use Rattle.answers.specs.Fields.{short_fields};
ghost use Rattle.answers.specs.Numbers.{number_of};
ghost use Rattle.image_program.specs.Printed.{line_one};
ghost use Rattle.verdict.specs.Lines.{line_two, fields_line, about_record, refused_lines};
ghost use Rattle.verdict.specs.Reports.{report_text};

use answers::error::{ImageRefused, Refusal};
use answers::verdict::ShortEntry;
use image_program::line_one;
use std::fmt;

#[derive(Clone, Copy, Debug, PartialEq, Eq)]
pub enum Report {
    // a refusal of the image or of the verdict
    Refused(Refusal),
    // one of the image that is about a record, at this place
    AtRecord(Refusal, u64),
    Consistent,
    Short(ShortEntry),
}

impl fmt::Display for Report {
    ghost output = { λ r. Some (report_text r) };

    fn fmt<W: fmt::Write>(&self, f: &mut fmt::Formatter<W>) -> fmt::Result {
        let mut room = [0u8; 128];
        let end = put(&mut room, *self);
        text::shown(&room[..end], f)
    }
}

// What a yes names in place of an entry.
const NO_ENTRY: ShortEntry = ShortEntry {
    node: 0,
    level: 0,
    digit: 0,
};

fn line_two(out: &mut [u8], at: usize, consistent: u64, entry: ShortEntry) -> usize
    requires { at + 98 ≤ length out.old }
    ensures put { Put out.old at (line_two consistent entry.node entry.level entry.digit) out.new result }
    ensures upper_bound { result ≤ at + 98 }
{
    let second = text::labelled(out, at, b"consistent ", consistent);
    let third = text::labelled(out, second, b" at ", entry.node as u64);
    let fourth = text::labelled(out, third, b" ", entry.level as u64);
    text::line(out, fourth, b" ", entry.digit as u64)
}

// Puts the report at the start of out.
pub fn put(out: &mut [u8], report: Report) -> usize
    requires { 127 ≤ length out.old }
    ensures put { Put out.old 0 (report_text report) out.new result }
    ensures upper_bound { result ≤ 127 }
{
    match report {
        Report::Refused(refusal) => line_one(out, refusal.into()),
        Report::AtRecord(refusal, place) => {
            let at = line_one(out, refusal.into());
            text::line(out, at, b"record ", place)
        }
        Report::Consistent => {
            let at = line_one(out, 0);
            line_two(out, at, 1, NO_ENTRY)
        }
        Report::Short(entry) => {
            let at = line_one(out, 0);
            line_two(out, at, 0, entry)
        }
    }
}

#[tactic(auto, unfolding(crate::specs::Lines::about_record))]
fn is_about_record(refusal: Refusal) -> bool
    ensures { result ≡ about_record (number_of refusal) }
{
    matches!(
        refusal,
        Refusal::RecordOrder | Refusal::RecordNeighbor | Refusal::OwnEntry
    )
}

// An image that was not read.
pub fn unread(refused: ImageRefused) -> Report
    ensures { report_text result ≡ refused_lines (number_of refused.refusal ∷ refused.place ∷ []) }
{
    if is_about_record(refused.refusal) {
        Report::AtRecord(refused.refusal, refused.place)
    } else {
        Report::Refused(refused.refusal)
    }
}

// A network that was judged: the first entry that falls short, or none.
pub fn judged(short: Option<ShortEntry>) -> Report
    ensures { report_text result ≡ line_one 0 ++ fields_line (short_fields short) }
{
    match short {
        None => Report::Consistent,
        Some(entry) => Report::Short(entry),
    }
}
