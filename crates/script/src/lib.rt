// A script of calls: the words of its lines, the numbers and failed nodes that they name, and the command of each line.
#![tactic(auto)]

pub mod command;
pub mod failed;
pub mod numbers;
pub mod words;
