// What the program says of an image: the refusal; where it is 0, how many nodes were added, and a line for each of them.
ghost use Rattle.std.specs.Prelude.{◌≡◌, Some, IfOk, ◌+◌, ◌*◌, ◌≤◌, length};
ghost use Rattle.std.specs.Fmt.{DisplaysOnOk};
ghost use Rattle.putting.specs.Put.{Put};
ghost use Rattle.fill.specs.Lines.{done_text};
ghost use Rattle.fill.specs.Reports.{report_text, most_reported};

use crate::added::{Additions, added_lines};
use additions::LONGEST;
use answers::error::Refusal;
use image_program::line_one;
use std::fmt;

#[derive(Clone, Copy)]
pub enum Report<'a> {
    Refused(Refusal),
    Filled(Additions<'a>),
}

impl<'a> fmt::Display for Report<'a> {
    ghost output = { λ r. Some (report_text r) };

    fn fmt<W: fmt::Write>(&self, f: &mut fmt::Formatter<W>) -> fmt::Result {
        if additions_of(*self) <= 64 {
            shown_in::<5880, W>(*self, f)
        } else {
            shown_in::<524288, W>(*self, f)
        }
    }
}

// Puts the report into a room of so many bytes and shows it. It is not inlined, so that a report clears its own room alone.
#[inline(never)]
fn shown_in<const ROOM: usize, W: fmt::Write>(
    report: Report<'_>,
    f: &mut fmt::Formatter<W>,
) -> fmt::Result
    requires room { most_reported report ≤ ROOM }
    requires room_bound { ROOM ≤ 524288 }
    ensures { DisplaysOnOk W.write_str_gives f.old result (Some (report_text report.entry)) f.new }
{
    let mut room = [0u8; ROOM];
    let end = put(&mut room, report);
    text::shown(&room[..end], f)
}

// How many additions it lists: most reports list few, and the room for the longest list costs more to clear than their lines to put.
fn additions_of(report: Report<'_>) -> usize
    ensures most { most_reported report.entry ≤ 56 + 91 * result }
    ensures upper_bound { result ≤ 5376 }
{
    match report {
        Report::Refused(_) => 0,
        Report::Filled(additions) => additions.n,
    }
}

// Puts the report at the start of out: line one has at most 29 bytes, and the lines of the longest list 489,243.
pub fn put(out: &mut [u8], report: Report<'_>) -> usize
    requires { most_reported report ≤ length out.old }
    ensures put { Put out.old 0 (report_text report.entry) out.new result }
    ensures most { result ≤ most_reported report.entry }
    ensures upper_bound { result ≤ 489272 }
{
    match report {
        Report::Refused(refusal) => line_one(out, refusal.into()),
        Report::Filled(additions) => {
            let list = additions.list;
            let at = line_one(out, 0);
            added_lines(out, at, list, additions.n)
        }
    }
}

// What was done with the list: how many additions it has, or why there are none.
pub fn reported<'a>(filled: Result<usize, Refusal>, list: &'a [u8; LONGEST]) -> Report<'a>
    requires { IfOk filled (λ n. 4 * n ≤ length list.now) }
    ensures { report_text result ≡ done_text filled list.now }
{
    match filled {
        Ok(n) => Report::Filled(Additions { list, n }),
        Err(refusal) => Report::Refused(refusal),
    }
}
