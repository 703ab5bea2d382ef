// What refuses each public call: its sentences, in the documents' order, each a test that is left by `?`. Every `judge` answers what the work of its
// call needs, or the first refusal that holds.
#![tactic(auto)]

pub mod beginning;
pub mod delivering;
pub mod fill;
pub mod founding;
pub mod lookup;
pub mod reading;
pub mod sentences;
pub mod tracing;
pub mod verdict;
pub mod withdrawing;
pub mod writing;
