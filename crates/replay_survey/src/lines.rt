// A line for each number of hops, and one for the lost pairs. A count with its bar has at most 75 bytes, such a line 103, the 8 of
// them 824, and the last line 84: a number is given room for 20 digits.
ghost use Rattle.std.specs.Prelude.{◌+◌, ◌≤◌, ◌<◌, length, replicate};
ghost use Rattle.model.specs.Loops.{join_below};
ghost use Rattle.putting.specs.Put.{Put};
ghost use Rattle.replay_survey.specs.SurveyText.{indent, bar_text, count_text, hop_text, lost_text};
ghost use Rattle.replay_survey.specs.Showable.{Pairs, Share};

use putting::piece;

fn indent(out: &mut [u8], at: usize, n: u64) -> usize
    requires { at + 3 ≤ length out.old }
    ensures put { Put out.old at (indent n) out.new result }
    ensures upper_bound { result ≤ at + 3 }
{
    match n {
        0..=9 => piece(out, at, b"   "),
        10..=99 => piece(out, at, b"  "),
        100..=999 => piece(out, at, b" "),
        _ => at,
    }
}

fn marks(out: &mut [u8], at: usize, n: usize) -> usize
    requires n_bound { n ≤ 50 }
    requires at_in_bounds { at + 50 ≤ length out.old }
    ensures put { Put out.old at (replicate n 35) out.new result }
    ensures upper_bound { result ≤ at + 50 }
{
    let row = [b'#'; 50];
    piece(out, at, &row[..n])
}

// Nothing for no pairs. A count is among all pairs, so that its bar has at most 50 marks.
fn bar(out: &mut [u8], at: usize, count: u64, pairs: u64) -> usize
    requires share { Share count pairs }
    requires at_in_bounds { at + 51 ≤ length out.old }
    ensures put { Put out.old at (bar_text count pairs) out.new result }
    ensures upper_bound { result ≤ at + 51 }
{
    if count == 0 {
        return at;
    }
    let end = piece(out, at, b" ");
    marks(out, end, ((count * 50 + pairs - 1) / pairs) as usize)
}

// A count with its bar, to the line's end.
fn count(out: &mut [u8], at: usize, count: u64, pairs: u64) -> usize
    requires share { Share count pairs }
    requires at_in_bounds { at + 75 ≤ length out.old }
    ensures put { Put out.old at (count_text count pairs) out.new result }
    ensures upper_bound { result ≤ at + 75 }
{
    let second = indent(out, at, count);
    let third = text::number(out, second, count);
    let fourth = bar(out, third, count, pairs);
    piece(out, fourth, b"\n")
}

fn hop(out: &mut [u8], at: usize, k: usize, counts: [u64; 9], pairs: u64) -> usize
    requires k_bound { k < 8 }
    requires pairs { Pairs counts pairs }
    requires at_in_bounds { at + 103 ≤ length out.old }
    ensures put { Put out.old at (hop_text counts k) out.new result }
    ensures upper_bound { result ≤ at + 103 }
{
    let second = text::labelled(out, at, b"  hops ", k as u64 + 1);
    let third = piece(out, second, b" ");
    count(out, third, counts[k], pairs)
}

pub fn hops(out: &mut [u8], at: usize, digits: usize, counts: [u64; 9], pairs: u64) -> usize
    requires digits_bound { digits ≤ 8 }
    requires pairs { Pairs counts pairs }
    requires at_in_bounds { at + 824 ≤ length out.old }
    ensures put { Put out.old at (join_below digits (hop_text counts)) out.new result }
    ensures upper_bound { result ≤ at + 824 }
{
    let mut end = at;
    for k in 0..digits {
        end = hop(out, end, k, counts, pairs);
    }
    end
}

pub fn lost(out: &mut [u8], at: usize, counts: [u64; 9], pairs: u64) -> usize
    requires pairs { Pairs counts pairs }
    requires at_in_bounds { at + 84 ≤ length out.old }
    ensures put { Put out.old at (lost_text counts) out.new result }
    ensures upper_bound { result ≤ at + 84 }
{
    let end = piece(out, at, b"  lost   ");
    count(out, end, counts[8], pairs)
}
