// An entry of a table that falls short: its node, level and digit. A verdict is the first such entry, and none where the network is K-consistent.
#[derive(Clone, Copy, Debug, PartialEq, Eq)]
pub struct ShortEntry {
    pub node: usize,
    pub level: usize,
    pub digit: usize,
}
