// The additions of a list, and their lines. A number is given room for 20 digits: the first line has at most 27 bytes, and a line of an addition 91, of
// which there are 5,376 at most.
ghost use Rattle.std.specs.Prelude.{◌≡◌, ◌+◌, ◌*◌, ◌≤◌, length};
ghost use Rattle.model.specs.Loops.{join_below};
ghost use Rattle.putting.specs.Put.{Put};
ghost use Rattle.fill.specs.Lines.{record_line, record_at, added_lines};

use additions::{Addition, LONGEST, load};

// The first n additions of a list.
#[derive(Clone, Copy)]
pub struct Additions<'a> {
    pub list: &'a [u8; LONGEST],
    pub n: usize,
    ghost listed: { 4 * n ≤ length list.now },
    ghost few: { n ≤ 5376 },
}

fn record_line(out: &mut [u8], at: usize, a: Addition) -> usize
    requires { at + 91 ≤ length out.old }
    ensures put { Put out.old at (record_line a.node a.level a.digit a.neighbor) out.new result }
    ensures upper_bound { result ≤ at + 91 }
{
    let level = text::labelled(out, at, b"record ", a.node);
    let digit = text::labelled(out, level, b" ", a.level);
    let neighbor = text::labelled(out, digit, b" ", a.digit);
    text::line(out, neighbor, b" ", a.neighbor)
}

fn record_lines(out: &mut [u8], at: usize, list: &[u8], n: usize) -> usize
    requires n_in_bounds { 4 * n ≤ length list.now }
    requires n_in_bounds_2 { at + 91 * n ≤ length out.old }
    ensures put { Put out.old at (join_below n (record_at list.now)) out.new result }
    ensures upper_bound { result ≤ at + 91 * n }
{
    let mut end = at;
    for k in 0..n {
        end = record_line(out, end, load(list, k));
    }
    end
}

// How many additions there are, and a line for each.
pub fn added_lines(out: &mut [u8], at: usize, list: &[u8], n: usize) -> usize
    requires n_in_bounds { 4 * n ≤ length list.now }
    requires n_in_bounds_2 { at + 27 + 91 * n ≤ length out.old }
    ensures put { Put out.old at (added_lines n list.now) out.new result }
    ensures upper_bound { result ≤ at + 27 + 91 * n }
{
    let end = text::line(out, at, b"added ", n as u64);
    record_lines(out, end, list, n)
}
