// A call played by the public call of its kind, with what is said of its answer. Memory, output and answer are those of the book's step, so what
// crate promise shows of every run holds of calls that are played here one after another.
#![tactic(auto)]

pub mod one;
