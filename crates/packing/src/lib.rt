// The answer of a call as numbers, and as one number of 64 bits.
#![tactic(auto)]

pub mod fields;
pub mod numbers;
pub mod pack;
