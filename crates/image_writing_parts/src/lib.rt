// The parts of an image written to lent memory: its head and ids, its records, and of version 2 the joins under way and the counts.
#![tactic(auto)]

pub mod counts;
pub mod ids;
pub mod joins;
pub mod slots;
pub mod table;
