// Reading a trace: how many places the path has that starts at a byte of it.
#![tactic(auto)]

pub mod reader;

ghost use Rattle.std.specs.Prelude.{◌≡◌};
ghost use Rattle.trace_reading.specs.Read.{count_at};

use crate::reader::Reader;

// The count of the path that starts at `at`: from 1 to 9, and the trace holds as many bytes behind it.
// None where it is any other, or missing.
fn count_at(trace: &[u8], at: usize) -> Option<usize>
    ensures { result ≡ count_at trace.now at }
{
    if trace.len() <= at {
        return None;
    }
    let places = trace[at] as usize;
    if places < 1 || 9 < places || trace.len() - at <= places {
        return None;
    }
    Some(places)
}

// The same by a reader at that byte: what callers use, who have the trace and the cursor and no reader.
pub fn path_at(trace: &[u8], at: usize) -> Option<usize>
    ensures { result ≡ count_at trace.now at }
{
    Reader::new(trace, at).path()
}
