// The public calls: each judges the sentences that may refuse it, in the documents' order, and then has the work done. None of them asks
// anything of its caller; the contract of each equates the memory and the answer with the book's call.
#![tactic(auto)]

pub mod beginning;
pub mod delivering;
pub mod fill;
pub mod founding;
pub mod lookup;
pub mod reading;
pub mod sound;
pub mod survey;
pub mod tracing;
pub mod verdict;
pub mod withdrawing;
pub mod writing;
