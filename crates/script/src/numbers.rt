// The words of a line as numbers. A number that the bits do not hold is none: it is never cut off.
ghost use Rattle.std.specs.Prelude.{◌≡◌, ◌≤◌, ◌<◌, unwrap_or, IfSome};
ghost use Rattle.script.specs.Words.{word};
ghost use Rattle.script.specs.Numbers.{digit, with_digit, number_of, decimal_of, hexadecimal_of};

use crate::words::word;

// The value of a digit.
#[tactic(auto, unfolding(crate::specs::Numbers::digit))]
fn digit(b: u8) -> Option<u64>
    ensures value { unwrap_or result 16 ≡ digit b }
    ensures below { IfSome result (λ d. d < 16) }
{
    match b {
        b'0'..=b'9' => Some((b - b'0') as u64),
        b'a'..=b'f' => Some((b - b'a') as u64 + 10),
        b'A'..=b'F' => Some((b - b'A') as u64 + 10),
        _ => None,
    }
}

// One more digit behind a number.
#[tactic(auto, unfolding(crate::specs::Numbers::with_digit))]
fn with_digit(n: u64, base: u64, b: u8) -> Option<u64>
    requires { (0 < base) × (base ≤ 16) }
    ensures { result ≡ with_digit base n (digit b) }
{
    let d = digit(b)?;
    if d >= base {
        return None;
    }
    n.checked_mul(base)?.checked_add(d)
}

// The number that a word is in this base.
#[tactic(auto, unfolding(crate::specs::Numbers::number_of, crate::specs::Numbers::is_number, crate::specs::Words::is_empty))]
fn value(text: &[u8], base: u64) -> Option<u64>
    requires { (0 < base) × (base ≤ 16) }
    ensures { result ≡ number_of base text.now }
{
    if text.is_empty() {
        return None;
    }
    let mut n = 0;
    for b in text {
        n = with_digit(n, base, *b)?;
    }
    Some(n)
}

// A word as a number in decimal.
pub fn decimal_of(text: &[u8]) -> Option<u64>
    ensures { result ≡ decimal_of text.now }
{
    value(text, 10)
}

// Word k as a number in decimal.
pub fn decimal(line: &[u8], k: u64) -> Option<u64>
    ensures { result ≡ decimal_of (word k line.now) }
{
    decimal_of(word(line, k))
}

// Word k as an id, a number of 32 bits in hexadecimal.
#[tactic(auto, unfolding(crate::specs::Numbers::hexadecimal_of, crate::specs::Numbers::number_of))]
pub fn hexadecimal(line: &[u8], k: u64) -> Option<u32>
    ensures { result ≡ hexadecimal_of (word k line.now) }
{
    let n = value(word(line, k), 16)?;
    if n > 0xffff_ffff {
        return None;
    }
    Some(n as u32)
}
