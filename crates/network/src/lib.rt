// A sound network in lent memory, as a value: whoever holds one needs no other fact of its state and its tables.
#![tactic(auto)]

pub mod network;
pub mod reading;
