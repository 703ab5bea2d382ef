// What the program says of an image: the refusal; where it is 0, how many pairs arrive in each number of hops, and how many are lost.
ghost use Rattle.std.specs.Prelude.{Some, ◌≤◌, length};
ghost use Rattle.putting.specs.Put.{Put};
ghost use Rattle.survey.specs.Reports.{report_text};

use crate::counts::{Survey, count_lines};
use answers::error::Refusal;
use image_program::line_one;
use std::fmt;

#[derive(Clone, Copy)]
pub enum Report {
    Refused(Refusal),
    Surveyed(Survey),
}

impl fmt::Display for Report {
    ghost output = { λ r. Some (report_text r) };

    fn fmt<W: fmt::Write>(&self, f: &mut fmt::Formatter<W>) -> fmt::Result {
        let mut room = [0u8; 512];
        let end = put(&mut room, *self);
        text::shown(&room[..end], f)
    }
}

// Puts the report at the start of out.
pub fn put(out: &mut [u8], report: Report) -> usize
    requires { 431 ≤ length out.old }
    ensures put { Put out.old 0 (report_text report) out.new result }
    ensures upper_bound { result ≤ 431 }
{
    match report {
        Report::Refused(refusal) => line_one(out, refusal.into()),
        Report::Surveyed(survey) => {
            let at = line_one(out, 0);
            count_lines(out, at, survey.digits, survey.counts)
        }
    }
}
