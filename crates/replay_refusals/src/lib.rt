// A refusal in words: what `replay` says of its number and of the answer's next two fields.
#![tactic(auto)]

ghost use Rattle.std.specs.Prelude.{Some, [], ◌≡◌, ◌+◌, ◌≤◌, ℕ, MatchOption, length};
ghost use Rattle.answers.specs.Numbers.{number_of};
ghost use Rattle.putting.specs.Put.{Put};
ghost use Rattle.replay_refusals.specs.Refused.{sentence as sentence_text, path_text, place_text, refused_text};

use answers::error::{ImageRefused, Refusal, TraceRefused};
use putting::piece;
use std::fmt;

const NO_SUCH_NODE: u64 = Refusal::NoSuchNode as u64;

const STEP_NOT_ALLOWED: u64 = Refusal::StepNotAllowed as u64;

// The sentence of a refusal: of an own entry it says at place 0 that it has no record.
#[tactic(auto, unfolding(crate::specs::Refused::sentence, crate::specs::Refused::sentence_to_8, crate::specs::Refused::sentence_from_9, crate::specs::Refused::sentence_from_17, crate::specs::Refused::own_entry))]
fn sentence(refusal: Refusal, place: u64) -> &'static str
    ensures value { result.now ≡ sentence_text (number_of refusal) place }
    ensures upper_bound { length result.now ≤ 80 }
{
    match refusal {
        Refusal::ShortMemory => "the lent memory is too short",
        Refusal::Unsound => "the state is not sound",
        Refusal::NotAnImage => "the image has fewer than 5 bytes or does not begin with 4",
        Refusal::ImageVersion => "the version is neither 1 nor 2",
        Refusal::BadSetting => "a setting is out of range",
        Refusal::ImageCounts =>
            "the image's node count is wrong, or its length differs from its counts",
        Refusal::BadId => "an id has a digit not below the base, or a bit above its digits",
        Refusal::IdTaken => "an id is taken already",
        Refusal::NoSuchNode => "a node number is 0 or above the number of nodes",
        Refusal::RecordOrder =>
            "a level or digit is out of range, or the record is below the one before it",
        Refusal::Full => "there are 64 nodes already",
        Refusal::GatewayNotInSystem => "the gateway is not settled",
        Refusal::NotOutstanding => "no request from the first node to the second is outstanding",
        Refusal::Held => "the receiver of a wait request is not settled",
        Refusal::JoinInFlight => "a node is not settled",
        Refusal::ShortOutput => "the memory for the output is too short",
        Refusal::RecordNeighbor =>
            "the neighbour is not qualified, is in its entry already, or finds it full",
        Refusal::OwnEntry if place == 0 => "an own entry has no record",
        Refusal::OwnEntry => "an own entry does not start with its owner",
        Refusal::NotHighest => "the node is not the highest-numbered one",
        Refusal::HasAttached => "the node is settled or notifying",
        Refusal::HasFailed => "the start or the destination has failed",
        Refusal::TraceCounts =>
            "the trace is empty, a path's count is not 1 to 9, or the length does not fit",
        Refusal::StepNotAllowed =>
            "the step goes to no node of the lookup's entry, or past the destination",
        Refusal::UnsoundImage => "the image's state is not sound",
    }
}

// The refusal of a number; none where no sentence is of it.
#[tactic(auto, unfolding(crate::specs::Refused::sentence, crate::specs::Refused::sentence_to_8, crate::specs::Refused::sentence_from_9, crate::specs::Refused::sentence_from_17))]
fn of_number(number: u64) -> Option<Refusal>
    ensures { MatchOption result ((place : ℕ) → sentence_text number place ≡ []) (λ r. number_of r ≡ number) }
{
    match number {
        1 => Some(Refusal::ShortMemory),
        2 => Some(Refusal::Unsound),
        3 => Some(Refusal::NotAnImage),
        4 => Some(Refusal::ImageVersion),
        5 => Some(Refusal::BadSetting),
        6 => Some(Refusal::ImageCounts),
        7 => Some(Refusal::BadId),
        8 => Some(Refusal::IdTaken),
        9 => Some(Refusal::NoSuchNode),
        10 => Some(Refusal::RecordOrder),
        11 => Some(Refusal::Full),
        12 => Some(Refusal::GatewayNotInSystem),
        13 => Some(Refusal::NotOutstanding),
        14 => Some(Refusal::Held),
        15 => Some(Refusal::JoinInFlight),
        16 => Some(Refusal::ShortOutput),
        17 => Some(Refusal::RecordNeighbor),
        18 => Some(Refusal::OwnEntry),
        19 => Some(Refusal::NotHighest),
        20 => Some(Refusal::HasAttached),
        21 => Some(Refusal::HasFailed),
        22 => Some(Refusal::TraceCounts),
        23 => Some(Refusal::StepNotAllowed),
        24 => Some(Refusal::UnsoundImage),
        _ => None,
    }
}

// The sentence of a number, of which one that is no refusal's has no words.
fn sentence_of(number: u64, place: u64) -> &'static str
    ensures value { result.now ≡ sentence_text number place }
    ensures upper_bound { length result.now ≤ 80 }
{
    match of_number(number) {
        Some(refusal) => sentence(refusal, place),
        None => "",
    }
}

// A path, and a place or step of it.
fn in_path(out: &mut [u8], at: usize, label: &[u8], path: u64, k: u64) -> usize
    requires { at + length label.now + 49 ≤ length out.old }
    ensures put { Put out.old at (path_text label.now path k) out.new result }
    ensures upper_bound { result ≤ at + length label.now + 49 }
{
    let end = text::labelled(out, at, b" at path ", path);
    text::labelled(out, end, label, k)
}

// What the refusal is about; nothing, where first is 0.
fn at_place(out: &mut [u8], at: usize, number: u64, first: u64, second: u64) -> usize
    requires { at + 57 ≤ length out.old }
    ensures put { Put out.old at (place_text number first second) out.new result }
    ensures upper_bound { result ≤ at + 57 }
{
    if first == 0 {
        return at;
    }
    match number {
        NO_SUCH_NODE => in_path(out, at, b", place ", first, second),
        STEP_NOT_ALLOWED => in_path(out, at, b", step ", first, second),
        _ => text::labelled(out, at, b" at record ", first),
    }
}

// Puts the refusal's line at the start of out, and answers how many bytes it has.
pub fn put(out: &mut [u8], number: u64, first: u64, second: u64) -> usize
    requires { 168 ≤ length out.old }
    ensures put { Put out.old 0 (refused_text number first second) out.new result }
    ensures upper_bound { result ≤ 168 }
{
    let place = text::labelled(out, 0, b"refused ", number);
    let colon = at_place(out, place, number, first, second);
    let words = piece(out, colon, b": ");
    let end = piece(out, words, sentence_of(number, first).as_bytes());
    piece(out, end, b"\n")
}

// A refusal as a line, with the answer's next two fields.
#[derive(Clone, Copy, Debug, PartialEq, Eq)]
pub struct Refused {
    pub refusal: Refusal,
    pub first: u64,
    pub second: u64,
}

impl fmt::Display for Refused {
    ghost output = { λ r. Some (refused_text (number_of r.refusal) r.first r.second) };

    fn fmt<W: fmt::Write>(&self, f: &mut fmt::Formatter<W>) -> fmt::Result {
        let mut room = [0; 168];
        let number = u64::from(self.refusal);
        let end = put(&mut room, number, self.first, self.second);
        text::shown(&room[..end], f)
    }
}

impl From<Refusal> for Refused {
    ghost from_gives = { λ r e. e ≡ record { refusal = r; first = 0; second = 0 } };

    fn from(refusal: Refusal) -> Refused {
        Refused {
            refusal,
            first: 0,
            second: 0,
        }
    }
}

impl From<ImageRefused> for Refused {
    ghost from_gives = { λ i e. e ≡ record { refusal = i.refusal; first = i.place; second = 0 } };

    fn from(image: ImageRefused) -> Refused {
        Refused {
            refusal: image.refusal,
            first: image.place,
            second: 0,
        }
    }
}

impl From<TraceRefused> for Refused {
    ghost from_gives = { λ t e. e ≡ record { refusal = t.refusal; first = t.path; second = t.place } };

    fn from(trace: TraceRefused) -> Refused {
        Refused {
            refusal: trace.refusal,
            first: trace.path,
            second: trace.place,
        }
    }
}
