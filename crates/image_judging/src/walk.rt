// The one walk over the records, from front to back: it goes on past a neighbour that is not allowed and an own entry begun by another, and keeps the
// first of each, but ends at the first record that breaks the order.
ghost use Rattle.std.specs.Prelude.{◌≡◌, replicate};
ghost use Rattle.image_judging.specs.Walked.{Walked};

use crate::cursor::Cursor;
use crate::named::NamedImage;
use crate::own::OwnMarks;

// Where the first record of each fault stands, counted from 1.
#[derive(Clone, Copy, Debug, PartialEq, Eq)]
pub struct Faults {
    // Its level or digit is not one of the settings', or it is below the record before it.
    pub disordered: Option<usize>,
    // Its neighbour isn't qualified or stands in the entry already, or the entry is full.
    pub forbidden: Option<usize>,
    // It begins an own entry with another node than the owner.
    pub misplaced: Option<usize>,
}

// The faults of the records, and the marks of the own entries that they are of.
pub fn walk(named: &NamedImage<'_>, marks: &mut OwnMarks) -> Faults
    requires unmarked { marks.old.bytes ≡ replicate 512 0 }
    ensures { Walked named.now.image.bytes.now result marks.new.bytes }
{
    let image = named.image;
    let mut c = Cursor::start();
    for r in 0..image.header.records {
        let e = image.record(r);
        if !c.in_order(image.header, e) {
            return Faults {
                disordered: Some(r + 1),
                forbidden: c.forbidden,
                misplaced: c.misplaced,
            };
        }
        let own = image.is_own(e);
        marks.mark(e, own);
        c = c.judge(named, e, own);
    }
    Faults {
        disordered: None,
        forbidden: c.forbidden,
        misplaced: c.misplaced,
    }
}
