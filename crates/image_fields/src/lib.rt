// The parts of an image of bytes: its head, its ids and its records, read and judged one by one.
#![tactic(auto)]

pub mod header;
pub mod ids;
pub mod image;
pub mod opening;
pub mod record;
