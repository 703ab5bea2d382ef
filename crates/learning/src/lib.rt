// Learning a node or a table, and gathering the nodes to notify: document 01, "The join, step by step".
#![tactic(auto)]

pub mod gather;
pub mod learn;
pub mod learner;
