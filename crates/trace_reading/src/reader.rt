// A reader of a trace: its bytes, and where the next path starts. It only takes itself apart; what is
// read there is the work of functions over the slice.
ghost use Rattle.std.specs.Prelude.{◌≡◌};
ghost use Rattle.trace_reading.specs.Read.{count_at};

use crate::count_at;

#[derive(Clone, Copy, Debug, PartialEq, Eq)]
pub struct Reader<'a> {
    pub trace: &'a [u8],
    pub at: usize,
}

impl<'a> Reader<'a> {
    pub fn new(trace: &'a [u8], at: usize) -> Reader<'a>
        ensures { (result.trace ≡ trace.entry) × (result.at ≡ at) }
    {
        Reader { trace, at }
    }

    // The count of the path at the reader.
    pub fn path(self) -> Option<usize>
        ensures { result ≡ count_at self.entry.trace.now self.entry.at }
    {
        count_at(self.trace, self.at)
    }
}
