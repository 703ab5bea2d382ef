// Founding, and beginning and withdrawing a join, on lent memory that is known to be good: document 01, "The join, step by step", and document 02,
// Ticket 5.
#![tactic(auto)]

pub mod beginning;
pub mod founding;
pub mod withdrawing;
