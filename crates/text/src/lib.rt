// Text put together in lent memory: pieces one behind the other, each answered by the place behind it. A number has at most 20 digits.
#![tactic(auto)]

ghost use Rattle.std.specs.Prelude.{◌≡◌, ◌+◌, ◌^◌, ◌≤◌, ◌<◌, length, Some};
ghost use Rattle.std.specs.Fmt.{DisplaysOnOk};
ghost use Rattle.putting.specs.Put.{Put};
ghost use Rattle.text.specs.Numbers.{decimal, hexadecimal};
ghost use Rattle.text.specs.Lines.{labelled as labelled_text, line as line_text};

use putting::piece;
use std::{fmt, str};

// A number in decimal.
pub fn number(out: &mut [u8], at: usize, n: u64) -> usize
    requires { at + 20 ≤ length out.old }
    ensures put { Put out.old at (decimal n) out.new result }
    ensures upper_bound { result ≤ at + 20 }
{
    let mut digits = [0u8; 20];
    let k = io::decimal(n, &mut digits);
    piece(out, at, &digits[..k])
}

// A number of this many hexadecimal digits.
pub fn hex(out: &mut [u8], at: usize, n: u64, width: usize) -> usize
    requires width_in_bounds { at + width ≤ length out.old }
    requires le_width { 1 ≤ width }
    requires width_bound { width ≤ 16 }
    requires n_bound { n < 16 ^ width }
    ensures put { Put out.old at (hexadecimal width n) out.new result }
    ensures value { result ≡ at + width }
{
    let mut digits = [0u8; 16];
    let k = io::hex(n, width, &mut digits);
    piece(out, at, &digits[..k])
}

// A label and a number.
pub fn labelled(out: &mut [u8], at: usize, label: &[u8], n: u64) -> usize
    requires { at + length label.now + 20 ≤ length out.old }
    ensures put { Put out.old at (labelled_text label.now n) out.new result }
    ensures upper_bound { result ≤ at + length label.now + 20 }
{
    let end = piece(out, at, label);
    number(out, end, n)
}

// A line: a label and a number.
pub fn line(out: &mut [u8], at: usize, label: &[u8], n: u64) -> usize
    requires { at + length label.now + 21 ≤ length out.old }
    ensures put { Put out.old at (line_text label.now n) out.new result }
    ensures upper_bound { result ≤ at + length label.now + 21 }
{
    let end = labelled(out, at, label, n);
    piece(out, end, b"\n")
}

// Writes what was put to a formatter, whole and at once; bytes that are no text are an error.
pub fn shown<W: fmt::Write>(text: &[u8], f: &mut fmt::Formatter<W>) -> fmt::Result
    ensures { DisplaysOnOk W.write_str_gives f.old result (Some text.now) f.new }
{
    match str::from_utf8(text) {
        Ok(text) => write!(f, "{text}"),
        Err(_) => Err(fmt::Error),
    }
}
