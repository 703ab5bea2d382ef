// What a reader gives, put into lent memory.
#![tactic(auto)]

ghost use Rattle.std.specs.Prelude.{◌≤◌, length, take};
ghost use Rattle.std.specs.Io.KnownBytes.{Consumes};

use std::io::Read;

// Reads until the memory is full, the input ends or a read fails, and answers how many bytes it put at the start of the memory.
pub fn read_full<R: Read>(input: &mut R, memory: &mut [u8]) -> usize
    ensures upper_bound { result ≤ length memory.new }
    ensures consumed { Consumes (R.remaining input.old) (R.remaining input.new) (take result memory.new) }
{
    let mut at = 0;
    // no plainer as a `for`: the place moves by what each read gave
    while at < memory.len() {
        let Ok(n) = input.read(&mut memory[at..]) else {
            break;
        };
        if n == 0 {
            break;
        }
        at += n;
    }
    at
}
