// One node's table, 512 bytes of the lent table memory: its entries, and the table of a new node.
#![tactic(auto)]

pub mod clear;
pub mod entry;
pub mod own;
pub mod part;
