// Reads an image from standard input and prints its hop survey, document 02's Ticket 1: a line for each number of hops and one for the lost pairs.
#![tactic(auto)]

mod counts;
mod judge;
mod report;

use std::io;

fn main(rt: HostRuntime) -> io::Result<()> {
    judge::judge(&mut rt.stdin(), &mut rt.stdout())
}
