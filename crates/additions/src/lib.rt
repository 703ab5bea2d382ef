// The list that filling gives: a record of four bytes for each addition, node, level, digit and neighbour, one behind another.
#![tactic(auto)]

ghost use Rattle.std.specs.Prelude.{◌≡◌, ◌+◌, ◌*◌, ◌≤◌, length};
ghost use Rattle.additions.specs.Listed.{blank, AdditionOf};

pub use filling::measure::LONGEST;

// Memory for the longest list.
pub fn blank() -> [u8; LONGEST]
    ensures { (result ≡ blank) × (length result ≡ 21504) }
{
    [0; LONGEST]
}

// The four bytes as numbers.
#[derive(Clone, Copy, Debug, PartialEq, Eq)]
pub struct Addition {
    pub node: u64,
    pub level: u64,
    pub digit: u64,
    pub neighbor: u64,
}

// Addition r, which counts from 0.
pub fn load(list: &[u8], r: usize) -> Addition
    requires { 4 * r + 4 ≤ length list.now }
    ensures { AdditionOf list.now r result }
{
    let at = 4 * r;
    Addition {
        node: u64::from(list[at]),
        level: u64::from(list[at + 1]),
        digit: u64::from(list[at + 2]),
        neighbor: u64::from(list[at + 3]),
    }
}
