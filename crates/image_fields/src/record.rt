// A record of an image: the node whose table it is of, the level, the digit, and the neighbour in the slot.
ghost use Rattle.std.specs.Prelude.{◌≡◌, ◌<◌, eqb};
ghost use Rattle.model.specs.Ids.{digit_of};
ghost use Rattle.model.specs.Image.{im_records, im_id, rec_nodes_good};
ghost use Rattle.image_fields.specs.Parts.{ImageNode, RecordOf, Small, key_of};

use crate::header::byte;
use crate::image::Image;
use ident::digit;

// The four bytes as numbers.
#[derive(Clone, Copy, Debug, PartialEq, Eq)]
pub struct Record {
    pub node: usize,
    pub level: usize,
    pub digit: usize,
    pub neighbor: usize,
}

impl<'a> Image<'a> {
    // Record r, which counts from 0.
    pub fn record(&self, r: usize) -> Record
        requires { r < im_records self.now.bytes.now }
        ensures { RecordOf self.now.bytes.now r result × Small result }
    {
        let at = 8 + 4 * self.header.nodes + 4 * r;
        Record {
            node: byte(self.bytes, at),
            level: byte(self.bytes, at + 1),
            digit: byte(self.bytes, at + 2),
            neighbor: byte(self.bytes, at + 3),
        }
    }

    // Not 9, of record r: both its numbers are nodes'.
    pub fn names_nodes(&self, r: usize) -> bool
        requires { r < im_records self.now.bytes.now }
        ensures { result ≡ rec_nodes_good self.now.bytes.now r }
    {
        let e = self.record(r);
        self.header.is_node(e.node) && self.header.is_node(e.neighbor)
    }

    // The record is of an own entry of its node: its digit is the node's own at that level.
    pub fn is_own(&self, e: Record) -> bool
        requires { ImageNode self.now.bytes.now e.node }
        ensures { result ≡ eqb e.digit (digit_of (im_id self.now.bytes.now e.node) e.level) }
    {
        e.digit == digit(self.id(e.node), e.level)
    }
}

// The record's entry as one number, which rises as the entries do.
pub fn key(e: Record) -> usize
    requires { Small e }
    ensures { result ≡ key_of e }
{
    65536 * e.node + 256 * e.level + e.digit
}
