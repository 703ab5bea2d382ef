// The lent memory: its lengths, and of its words the settings, a node's record, the record that a step gives it next, its status, what a
// check asks of it, sets of nodes, and words that are cleared, copied or zero.
#![tactic(auto)]

pub mod clear;
pub mod copy;
pub mod lent;
pub mod next_record;
pub mod node;
pub mod record;
pub mod sets;
pub mod settings;
pub mod status;
pub mod zero;
