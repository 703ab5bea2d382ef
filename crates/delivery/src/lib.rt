// Delivering a request, a function for each kind, on a sound state: document 01, "The join, step by step". A wait request is in
// `delivery_waiting`.
#![tactic(auto)]

pub mod copying;
pub mod delivering;
pub mod notifying;
