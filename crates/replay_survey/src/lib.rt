// A survey in words, in lent memory.
#![tactic(auto)]

ghost use Rattle.std.specs.Prelude.{Some, ◌≤◌, length};
ghost use Rattle.putting.specs.Put.{Put};
ghost use Rattle.replay_survey.specs.SurveyText.{survey_said};
ghost use Rattle.replay_survey.specs.Showable.{Few, Showable, Pairs};

use crate::lines::{hops, lost};
use putting::piece;
use std::fmt;

pub mod lines;

fn all_pairs(counts: [u64; 9]) -> u64
    requires { Few counts }
    ensures { Pairs counts result }
{
    let mut pairs = 0;
    for count in counts {
        pairs += count;
    }
    pairs
}

// Puts the words of the survey at the start of out, and answers how many bytes they are.
pub fn put(out: &mut [u8], digits: usize, counts: [u64; 9]) -> usize
    requires showable { Showable digits counts }
    requires in_bounds { 943 ≤ length out.old }
    ensures put { Put out.old 0 (survey_said digits counts) out.new result }
    ensures upper_bound { result ≤ 943 }
{
    let pairs = all_pairs(counts);
    let second = text::labelled(out, 0, b"survey: ", pairs);
    let third = piece(out, second, b" pairs\n");
    let fourth = hops(out, third, digits, counts, pairs);
    lost(out, fourth, counts, pairs)
}

// A line of how many pairs there are, one for each number of hops, and one for the lost pairs.
#[derive(Clone, Copy)]
pub struct Survey {
    pub digits: usize,
    pub counts: [u64; 9],
    ghost showable: { Showable digits counts },
}

impl fmt::Display for Survey {
    ghost output = { λ s. Some (survey_said s.digits s.counts) };

    fn fmt<W: fmt::Write>(&self, f: &mut fmt::Formatter<W>) -> fmt::Result {
        let mut room = [0; 943];
        let end = put(&mut room, self.digits, self.counts);
        text::shown(&room[..end], f)
    }
}
