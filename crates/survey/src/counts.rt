// The counts of a survey, and their lines. A number is given room for 20 digits: a line of hops has at most 47 bytes, the 8 of them 376, and the last
// line 26.
ghost use Rattle.std.specs.Prelude.{◌+◌, ◌≤◌, length};
ghost use Rattle.model.specs.Loops.{join_below};
ghost use Rattle.putting.specs.Put.{Put};
ghost use Rattle.survey.specs.Lines.{hop_line, hop_at, count_lines};

// The counts of a survey, of which the first ones up to this many digits are shown, and the lost pairs at place 8.
#[derive(Clone, Copy)]
pub struct Survey {
    pub digits: usize,
    pub counts: [u64; 9],
    ghost few: { digits ≤ 8 },
}

// `hops`, their number, and how many pairs.
fn hop_line(out: &mut [u8], at: usize, hops: u64, pairs: u64) -> usize
    requires { at + 47 ≤ length out.old }
    ensures put { Put out.old at (hop_line hops pairs) out.new result }
    ensures upper_bound { result ≤ at + 47 }
{
    let end = text::labelled(out, at, b"hops ", hops);
    text::line(out, end, b" ", pairs)
}

fn hop_lines(out: &mut [u8], at: usize, digits: usize, counts: [u64; 9]) -> usize
    requires digits_bound { digits ≤ 8 }
    requires at_in_bounds { at + 376 ≤ length out.old }
    ensures put { Put out.old at (join_below digits (hop_at counts)) out.new result }
    ensures upper_bound { result ≤ at + 376 }
{
    let mut end = at;
    for k in 0..digits {
        let hops = k + 1;
        end = hop_line(out, end, hops as u64, counts[k]);
    }
    end
}

// The lines of the hops, and how many pairs are lost.
pub fn count_lines(out: &mut [u8], at: usize, digits: usize, counts: [u64; 9]) -> usize
    requires digits_bound { digits ≤ 8 }
    requires at_in_bounds { at + 402 ≤ length out.old }
    ensures put { Put out.old at (count_lines digits counts) out.new result }
    ensures upper_bound { result ≤ at + 402 }
{
    let end = hop_lines(out, at, digits, counts);
    text::line(out, end, b"lost ", counts[8])
}
