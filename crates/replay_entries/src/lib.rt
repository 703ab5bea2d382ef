// What `replay` says of an entry, and of the additions to entries, put into lent memory. A number is given room for 20 digits: a line of an addition has at
// most 90 bytes.
#![tactic(auto)]

ghost use Rattle.std.specs.Prelude.{Some, ◌+◌, ◌*◌, ◌≤◌, length};
ghost use Rattle.model.specs.Loops.{join_below};
ghost use Rattle.putting.specs.Put.{Put};
ghost use Rattle.text.specs.Ascii.{ascii};
ghost use Rattle.replay_entries.specs.EntryText.{place_text, addition_text, addition_at};

use additions::load;
use putting::piece;
use std::fmt;

// An entry behind a label; of the digit the last four bits are shown.
pub fn place(out: &mut [u8], at: usize, label: &[u8], x: u64, i: u64, j: u64) -> usize
    requires { at + length label.now + 55 ≤ length out.old }
    ensures put { Put out.old at (place_text label.now x i j) out.new result }
    ensures upper_bound { result ≤ at + length label.now + 55 }
{
    let second = text::labelled(out, at, label, x);
    let third = text::labelled(out, second, b" level ", i);
    let fourth = piece(out, third, b" digit ");
    text::hex(out, fourth, j % 16, 1)
}

// The neighbour that an entry gains, as a line.
fn addition(out: &mut [u8], at: usize, x: u64, i: u64, j: u64, y: u64) -> usize
    requires { at + 90 ≤ length out.old }
    ensures put { Put out.old at (addition_text x i j y) out.new result }
    ensures upper_bound { result ≤ at + 90 }
{
    let end = place(out, at, b"  node ", x, i, j);
    text::line(out, end, b" gains ", y)
}

// A line for each of the first n additions of a list, at the start of out.
pub fn additions(out: &mut [u8], list: &[u8], n: usize) -> usize
    requires n_in_bounds { 4 * n ≤ length list.now }
    requires n_in_bounds_2 { 90 * n ≤ length out.old }
    ensures put { Put out.old 0 (join_below n (addition_at list.now)) out.new result }
    ensures upper_bound { result ≤ 90 * n }
{
    let mut end = 0;
    for k in 0..n {
        let a = load(list, k);
        end = addition(out, end, a.node, a.level, a.digit, a.neighbor);
    }
    end
}

// An entry by its node, level and digit, of which the last four bits are shown.
#[derive(Clone, Copy)]
pub struct Entry {
    pub node: u64,
    pub level: u64,
    pub digit: u64,
}

impl fmt::Display for Entry {
    ghost output = { λ e. Some (place_text (ascii "node ") e.node e.level e.digit) };

    fn fmt<W: fmt::Write>(&self, f: &mut fmt::Formatter<W>) -> fmt::Result {
        let mut room = [0; 60];
        let end = place(&mut room, 0, b"node ", self.node, self.level, self.digit);
        text::shown(&room[..end], f)
    }
}
