// A lookup: whether it arrived or was lost, how many hops it took, and its last node.
#[derive(Clone, Copy, Debug, PartialEq, Eq)]
pub struct Lookup {
    pub arrived: bool,
    pub hops: usize,
    pub last: usize,
}
