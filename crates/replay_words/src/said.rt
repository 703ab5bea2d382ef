// What is said of a call: that it was refused, or its answer.
ghost use Rattle.std.specs.Prelude.{Some, [], ◌∷◌, ◌≤◌, cond, length};
ghost use Rattle.answers.specs.Fields.{taken_fields, short_fields};
ghost use Rattle.answers.specs.Numbers.{number_of};
ghost use Rattle.putting.specs.Put.{Put};
ghost use Rattle.replay_refusals.specs.Refused.{refused_text};
ghost use Rattle.replay_words.specs.Said.{deliver_text, lookup_text, judged_text};
ghost use Rattle.replay_words.specs.Words.{words_of};

use crate::answer;
use answers::delivery::{Delivery, Kind};
use answers::lookup::Lookup;
use answers::verdict::ShortEntry;
use replay_refusals::Refused;
use replay_survey::Survey;
use std::fmt;

#[derive(Clone, Copy)]
pub enum Said {
    Refused(Refused),
    Founded,
    // so many bytes
    Loaded(u64),
    // the node
    Begun(u64),
    // the node
    Withdrawn(u64),
    Delivered(Delivery),
    LookedUp(Lookup),
    Surveyed(Survey),
    // the first entry that falls short
    Judged(Option<ShortEntry>),
    // so many additions
    Filled(u64),
    // so many bytes
    Saved(u64),
    // so many paths
    Traced(u64),
    Sound,
}

fn refused(out: &mut [u8], refused: Refused) -> usize
    requires { 168 ≤ length out.old }
    ensures put { Put out.old 0 (refused_text (number_of refused.refusal) refused.first refused.second) out.new result }
    ensures upper_bound { result ≤ 168 }
{
    let number = u64::from(refused.refusal);
    replay_refusals::put(out, number, refused.first, refused.second)
}

fn delivered(out: &mut [u8], delivery: Delivery) -> usize
    requires { 57 ≤ length out.old }
    ensures put { Put out.old 0 (deliver_text (0 ∷ taken_fields delivery)) out.new result }
    ensures upper_bound { result ≤ 57 }
{
    let settled = u64::from(delivery.settled);
    match delivery.kind {
        Kind::Copied => answer::delivered(out, 1, 0, settled),
        Kind::SentOn => answer::delivered(out, 2, 0, settled),
        Kind::Attached(level) => answer::delivered(out, 3, level, settled),
        Kind::Notified => answer::delivered(out, 4, 0, settled),
    }
}

fn looked_up(out: &mut [u8], lookup: Lookup) -> usize
    requires { 69 ≤ length out.old }
    ensures put { Put out.old 0 (lookup_text (0 ∷ cond lookup.arrived 1 0 ∷ lookup.hops ∷ lookup.last ∷ [])) out.new result }
    ensures upper_bound { result ≤ 69 }
{
    let arrived = u64::from(lookup.arrived);
    answer::looked_up(out, arrived, lookup.hops as u64, lookup.last as u64)
}

// The first entry that falls short, if there is one.
fn judged(out: &mut [u8], entry: Option<ShortEntry>) -> usize
    requires { 82 ≤ length out.old }
    ensures put { Put out.old 0 (judged_text (0 ∷ short_fields entry)) out.new result }
    ensures upper_bound { result ≤ 82 }
{
    match entry {
        None => answer::judged(out, 1, 0, 0, 0),
        Some(e) => answer::judged(out, 0, e.node as u64, e.level as u64, e.digit as u64),
    }
}

// Puts the words at the start of out, and answers how many bytes they are.
pub fn put(out: &mut [u8], said: Said) -> usize
    requires { 943 ≤ length out.old }
    ensures put { Put out.old 0 (words_of said) out.new result }
    ensures upper_bound { result ≤ 943 }
{
    match said {
        Said::Refused(refusal) => refused(out, refusal),
        Said::Founded => answer::founded(out),
        Said::Loaded(n) => answer::loaded(out, n),
        Said::Begun(node) => answer::begun(out, node),
        Said::Withdrawn(node) => answer::withdrawn(out, node),
        Said::Delivered(delivery) => delivered(out, delivery),
        Said::LookedUp(lookup) => looked_up(out, lookup),
        Said::Surveyed(survey) => replay_survey::put(out, survey.digits, survey.counts),
        Said::Judged(entry) => judged(out, entry),
        Said::Filled(n) => answer::filled(out, n),
        Said::Saved(n) => answer::saved(out, n),
        Said::Traced(n) => answer::traced(out, n),
        Said::Sound => answer::sound(out),
    }
}

impl fmt::Display for Said {
    ghost output = { λ s. Some (words_of s) };

    fn fmt<W: fmt::Write>(&self, f: &mut fmt::Formatter<W>) -> fmt::Result {
        let mut room = [0; 943];
        let end = put(&mut room, *self);
        text::shown(&room[..end], f)
    }
}
