// What `replay` says of an answer, put into lent memory.
#![tactic(auto)]

pub mod answer;
pub mod said;
