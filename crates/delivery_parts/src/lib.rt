// What the kinds of delivery share: the record of a node that notifies, room in an entry, and two nodes that learn from each
// other.
#![tactic(auto)]

pub mod meeting;
pub mod nodes;
pub mod pair;
pub mod request;
pub mod room;
