// What the calls answer, and why one is refused. A call answers a `Result`: what it found or did, or
// the refusal, with a place where the refusal is about one.
#![tactic(auto)]

pub mod delivery;
pub mod error;
pub mod lookup;
pub mod verdict;
