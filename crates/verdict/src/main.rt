// Reads an image from standard input and prints the verdict of document 01 in one or two lines; on refusals 10, 17 and 18 the second is the record's place.
#![tactic(auto)]

mod judge;
mod report;

use std::io;

fn main(rt: HostRuntime) -> io::Result<()> {
    judge::judge(&mut rt.stdin(), &mut rt.stdout())
}
