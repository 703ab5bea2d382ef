// The answer of a call in words: a survey has at most 943 bytes, and any other answer is a line of at most 168.
ghost use Rattle.std.specs.Prelude.{[], ◌∷◌, ◌≡◌, ◌+◌, ◌≤◌, length};
ghost use Rattle.model.specs.Traces.{path_count};
ghost use Rattle.putting.specs.Put.{Put};
ghost use Rattle.text.specs.Ascii.{ascii};
ghost use Rattle.text.specs.Lines.{labelled, line};
ghost use Rattle.replay_words.specs.Said.{bytes_text, kind_text, settled_text, deliver_text, end_text, count_text, lookup_text, short_text, judged_text, additions_text, paths_text, taken_text, said};
ghost use Rattle.replay_words.specs.Sayable.{listed, Sayable};

use calls::Call;
use putting::piece;

// An answer in ten words: the refusal, the answer's other fields, and zeros behind them.
#[derive(Clone, Copy, Debug, PartialEq, Eq)]
pub struct Words {
    pub refusal: u64,
    pub fields: [u64; 9],
}

pub(crate) fn founded(out: &mut [u8]) -> usize
    requires { 14 ≤ length out.old }
    ensures put { Put out.old 0 (ascii "found: node 1\n") out.new result }
    ensures upper_bound { result ≤ 14 }
{
    piece(out, 0, b"found: node 1\n")
}

// How many bytes an image has.
fn bytes(out: &mut [u8], label: &[u8], n: u64) -> usize
    requires { length label.now + 27 ≤ length out.old }
    ensures put { Put out.old 0 (bytes_text label.now n) out.new result }
    ensures upper_bound { result ≤ length label.now + 27 }
{
    let end = text::labelled(out, 0, label, n);
    piece(out, end, b" bytes\n")
}

pub(crate) fn loaded(out: &mut [u8], n: u64) -> usize
    requires { 33 ≤ length out.old }
    ensures put { Put out.old 0 (bytes_text (ascii "load: ") n) out.new result }
    ensures upper_bound { result ≤ 33 }
{
    bytes(out, b"load: ", n)
}

pub(crate) fn saved(out: &mut [u8], n: u64) -> usize
    requires { 33 ≤ length out.old }
    ensures put { Put out.old 0 (bytes_text (ascii "save: ") n) out.new result }
    ensures upper_bound { result ≤ 33 }
{
    bytes(out, b"save: ", n)
}

pub(crate) fn begun(out: &mut [u8], node: u64) -> usize
    requires { 33 ≤ length out.old }
    ensures put { Put out.old 0 (line (ascii "begin: node ") node) out.new result }
    ensures upper_bound { result ≤ 33 }
{
    text::line(out, 0, b"begin: node ", node)
}

pub(crate) fn withdrawn(out: &mut [u8], node: u64) -> usize
    requires { 36 ≤ length out.old }
    ensures put { Put out.old 0 (line (ascii "withdraw: node ") node) out.new result }
    ensures upper_bound { result ≤ 36 }
{
    text::line(out, 0, b"withdraw: node ", node)
}

// What a delivery was.
#[tactic(auto, unfolding(crate::specs::Said::kind_text))]
fn kind(out: &mut [u8], kind: u64, level: u64) -> usize
    requires { 47 ≤ length out.old }
    ensures put { Put out.old 0 (kind_text kind level) out.new result }
    ensures upper_bound { result ≤ 47 }
{
    match kind {
        1 => piece(out, 0, b"deliver: copied"),
        2 => piece(out, 0, b"deliver: sent on"),
        3 => text::labelled(out, 0, b"deliver: attached at level ", level),
        _ => piece(out, 0, b"deliver: notified"),
    }
}

// Whether the sender settled.
#[tactic(auto, unfolding(crate::specs::Said::settled_text))]
fn settled(out: &mut [u8], at: usize, settled: u64) -> usize
    requires { at + 10 ≤ length out.old }
    ensures put { Put out.old at (settled_text settled) out.new result }
    ensures upper_bound { result ≤ at + 10 }
{
    if settled == 1 {
        piece(out, at, b", settled\n")
    } else {
        piece(out, at, b"\n")
    }
}

pub(crate) fn delivered(out: &mut [u8], kind_number: u64, level: u64, did_settle: u64) -> usize
    requires { 57 ≤ length out.old }
    ensures put { Put out.old 0 (deliver_text (0 ∷ kind_number ∷ level ∷ did_settle ∷ [])) out.new result }
    ensures upper_bound { result ≤ 57 }
{
    let end = kind(out, kind_number, level);
    settled(out, end, did_settle)
}

#[tactic(auto, unfolding(crate::specs::Said::end_text))]
fn ended(out: &mut [u8], arrived: u64, last: u64) -> usize
    requires { 39 ≤ length out.old }
    ensures put { Put out.old 0 (labelled (end_text arrived) last) out.new result }
    ensures upper_bound { result ≤ 39 }
{
    if arrived == 1 {
        text::labelled(out, 0, b"lookup: arrived at ", last)
    } else {
        text::labelled(out, 0, b"lookup: lost at ", last)
    }
}

// A label, a number, and what it is a number of: one, or any other number.
fn count(out: &mut [u8], at: usize, label: &[u8], n: u64, one: &[u8], many: &[u8]) -> usize
    requires one_in_bounds { length one.now ≤ length many.now }
    requires many_in_bounds { at + length label.now + 20 + length many.now ≤ length out.old }
    ensures put { Put out.old at (count_text label.now n one.now many.now) out.new result }
    ensures upper_bound { result ≤ at + length label.now + 20 + length many.now }
{
    let end = text::labelled(out, at, label, n);
    if n == 1 {
        piece(out, end, one)
    } else {
        piece(out, end, many)
    }
}

pub(crate) fn looked_up(out: &mut [u8], arrived: u64, hops: u64, last: u64) -> usize
    requires { 69 ≤ length out.old }
    ensures put { Put out.old 0 (lookup_text (0 ∷ arrived ∷ hops ∷ last ∷ [])) out.new result }
    ensures upper_bound { result ≤ 69 }
{
    let end = ended(out, arrived, last);
    count(out, end, b" in ", hops, b" hop\n", b" hops\n")
}

// An entry that falls short.
fn short(out: &mut [u8], x: u64, i: u64, j: u64) -> usize
    requires { 82 ≤ length out.old }
    ensures put { Put out.old 0 (short_text x i j) out.new result }
    ensures upper_bound { result ≤ 82 }
{
    let end = replay_entries::place(out, 0, b"verdict: node ", x, i, j);
    piece(out, end, b" falls short\n")
}

#[tactic(auto, unfolding(crate::specs::Said::judged_text))]
pub(crate) fn judged(out: &mut [u8], consistent: u64, x: u64, i: u64, j: u64) -> usize
    requires { 82 ≤ length out.old }
    ensures put { Put out.old 0 (judged_text (0 ∷ consistent ∷ x ∷ i ∷ j ∷ [])) out.new result }
    ensures upper_bound { result ≤ 82 }
{
    if consistent == 1 {
        piece(out, 0, b"verdict: consistent\n")
    } else {
        short(out, x, i, j)
    }
}

pub(crate) fn filled(out: &mut [u8], n: u64) -> usize
    requires { 37 ≤ length out.old }
    ensures put { Put out.old 0 (additions_text n) out.new result }
    ensures upper_bound { result ≤ 37 }
{
    count(out, 0, b"fill: ", n, b" addition\n", b" additions\n")
}

// A trace's count of paths, 0 of one that is empty.
fn path_count(trace: &[u8]) -> u64
    ensures { result ≡ path_count trace.now }
{
    match trace.first() {
        Some(&count) => u64::from(count),
        None => 0,
    }
}

pub(crate) fn traced(out: &mut [u8], paths: u64) -> usize
    requires { 43 ≤ length out.old }
    ensures put { Put out.old 0 (paths_text paths) out.new result }
    ensures upper_bound { result ≤ 43 }
{
    count(
        out,
        0,
        b"trace: ",
        paths,
        b" path accepted\n",
        b" paths accepted\n",
    )
}

pub(crate) fn sound(out: &mut [u8]) -> usize
    requires { 26 ≤ length out.old }
    ensures put { Put out.old 0 (ascii "sound: the state is sound\n") out.new result }
    ensures upper_bound { result ≤ 26 }
{
    piece(out, 0, b"sound: the state is sound\n")
}

#[tactic(auto, unfolding(crate::specs::Said::taken_text, crate::specs::Said::deliver_text, crate::specs::Said::lookup_text, crate::specs::Said::judged_text))]
fn taken(out: &mut [u8], digits: usize, file: &[u8], call: Call, w: Words) -> usize
    requires sayable { Sayable digits call (listed w) }
    requires refusal_value { w.refusal ≡ 0 }
    requires in_bounds { 943 ≤ length out.old }
    ensures put { Put out.old 0 (taken_text digits file.now call (listed w)) out.new result }
    ensures upper_bound { result ≤ 943 }
{
    match call {
        Call::Found(..) => founded(out),
        Call::Read => loaded(out, file.len() as u64),
        Call::Begin(..) => begun(out, w.fields[0]),
        Call::Withdraw(node) => withdrawn(out, node),
        Call::Deliver(..) => delivered(out, w.fields[0], w.fields[1], w.fields[2]),
        Call::Lookup(..) => looked_up(out, w.fields[0], w.fields[1], w.fields[2]),
        Call::Survey(_) => replay_survey::put(out, digits, w.fields),
        Call::Verdict => judged(out, w.fields[0], w.fields[1], w.fields[2], w.fields[3]),
        Call::Fill => filled(out, w.fields[0]),
        Call::Write(_) => saved(out, w.fields[0]),
        Call::Trace => traced(out, path_count(file)),
        Call::Sound => sound(out),
    }
}

// Puts the words at the start of out, and answers how many bytes they are. The network's ids have this many digits, and `file` is the image or trace
// that was lent with the call.
#[tactic(auto, unfolding(crate::specs::Said::said))]
pub fn put(out: &mut [u8], digits: usize, file: &[u8], call: Call, w: Words) -> usize
    requires sayable { Sayable digits call (listed w) }
    requires in_bounds { 943 ≤ length out.old }
    ensures put { Put out.old 0 (said digits file.now call (listed w)) out.new result }
    ensures upper_bound { result ≤ 943 }
{
    if w.refusal != 0 {
        replay_refusals::put(out, w.refusal, w.fields[0], w.fields[1])
    } else {
        taken(out, digits, file, call, w)
    }
}
