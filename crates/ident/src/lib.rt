// Identifiers as numbers: settings, digits, suffix masks, common suffixes. Every contract is an equation with the book
// (`crates/model/specs/Ids.antt` and `Tables.antt`) for all arguments; no function asks anything of its caller.
#![tactic(auto)]

ghost use Rattle.std.specs.Prelude.{◌≡◌, ◌<◌, ◌≤◌, min, eqb};
ghost use Rattle.model.specs.Ids.{settings_in_range, digit_of, low_digits, suffix_mask, common_suffix, valid_id};
ghost use Rattle.model.specs.Tables as tables;

// An id is a 32-bit number: its digits stand in places 0 to 7, and beyond them every digit is 0.
const PLACES: usize = 8;

const LAST_PLACE: usize = 7;

// The base is from 2 to 16, the digits are from 1 to 8, the depth is from 1 to 4.
#[tactic(auto, unfolding(model::specs::Ids::settings_in_range))]
pub fn settings_in_range(base: u64, digits: u64, depth: u64) -> bool
    ensures { result ≡ settings_in_range base digits depth }
{
    (2..=16).contains(&base) && (1..=8).contains(&digits) && (1..=4).contains(&depth)
}

// Digit i of an id: each digit has four bits, and digit 0 the lowest four.
pub fn digit(id: u32, i: usize) -> usize
    ensures { (result ≡ digit_of id i) × (result < 16) }
{
    if LAST_PLACE < i {
        return 0;
    }
    ((id >> (4 * i)) & 15) as usize
}

// The mask of the low i digits of an id, of all its places for a larger i: 0 for no digits, else the four bits of the highest and every bit below.
pub fn suffix_mask(i: usize) -> u32
    ensures { result ≡ suffix_mask (min i 8) }
{
    if i == 0 {
        return 0;
    }
    let highest = 15 << (4 * (i.min(PLACES) - 1));
    highest | (highest - 1)
}

// How many digits of two ids agree from the right, d at most (the paper's "match"): four bits to a digit, so a quarter of the equal bits below
// the first that differs.
pub fn common_suffix(digits: usize, x: u32, y: u32) -> usize
    ensures { (result ≡ common_suffix digits x y) × (result ≤ digits) }
{
    if x == y {
        return digits;
    }
    ((x ^ y).trailing_zeros() as usize / 4).min(digits)
}

// Both have the same low i digits: no bit that differs stands under the mask.
pub fn low_digits_equal(x: u32, y: u32, i: usize) -> bool
    ensures { result ≡ eqb (low_digits y i) (low_digits x i) }
{
    (x ^ y) & suffix_mask(i) == 0
}

// The id y is qualified for entry (i, j) of x: it ends in the low i digits of x, and j is the digit before them.
#[tactic(auto, unfolding(model::specs::Tables::qualified))]
pub fn qualified(x: u32, y: u32, i: usize, j: usize) -> bool
    ensures { result ≡ tables.qualified x y i j }
{
    low_digits_equal(x, y, i) && digit(y, i) == j
}

// The d lowest digits are below the base, and nothing stands above them.
pub fn valid_id(base: usize, digits: usize, id: u32) -> bool
    ensures { result ≡ valid_id base digits id }
{
    let places = digits.min(PLACES);
    (0..places).all(|i| digit(id, i) < base) && (id as u64) >> (4 * places) == 0
}
