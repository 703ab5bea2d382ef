// The cursor over the records of an image, by value. Records rise by node, level and digit, so the earlier records of an entry stand in one
// run that ends at the cursor: it holds their number and the neighbours that they name, and reads no record twice.
ghost use Rattle.std.specs.Prelude.{◌≡◌, true, not, ◌&&◌, ◌+◌, ◌<◌, ltb};
ghost use Rattle.model.specs.Memory.{has_node};
ghost use Rattle.model.specs.Image.{im_records, rec_own, rec_allowed};
ghost use Rattle.state.specs.Loaded.{Numbered};
ghost use Rattle.image_fields.specs.Parts.{RecordOf, Small};
ghost use Rattle.image_judging.specs.Faults.{noted};
ghost use Rattle.image_judging.specs.Cursors.{Enters, Follows, started, entered, passed, keeps_order, owner_leads};

use crate::named::NamedImage;
use ident::qualified;
use image_fields::header::Header;
use image_fields::record;
use image_fields::record::Record;
use state::sets;

// The next record; the entry of the record before it, by its key, with how many records of this
// entry are read and whom they name; and the places, counted from 1, of the first record that is not
// allowed and of the first that begins an own entry with another than its owner.
#[derive(Clone, Copy, Debug, PartialEq, Eq)]
pub struct Cursor {
    pub next: usize,
    pub key: usize,
    pub count: usize,
    pub named: u64,
    pub forbidden: Option<usize>,
    pub misplaced: Option<usize>,
}

// The first place of a fault, where `first` is that of the records before and the one at this place is good or not.
fn note(first: Option<usize>, good: bool, place: usize) -> Option<usize>
    ensures { result ≡ noted first good place }
{
    first.or((!good).then_some(place))
}

// The level and the digit of a record are the settings'.
fn fits(h: Header, e: Record) -> bool
    ensures { result ≡ (ltb e.level h.digits && ltb e.digit h.base) }
{
    e.level < h.digits && e.digit < h.base
}

impl Cursor {
    // Before the first record.
    pub fn start() -> Self
        ensures { result ≡ started }
    {
        Cursor {
            next: 0,
            key: 0,
            count: 0,
            named: sets::EMPTY,
            forbidden: None,
            misplaced: None,
        }
    }

    // The cursor in the entry of this key: the one that it is in, or a new one.
    fn enter(self, key: usize) -> Self
        ensures { result ≡ entered self key }
    {
        if self.key == key {
            return self;
        }
        Cursor {
            key,
            count: 0,
            named: sets::EMPTY,
            ..self
        }
    }

    // Level and digit are the settings', and the entry is not below that of the record before.
    pub fn in_order(self, h: Header, e: Record) -> bool
        requires { Small e }
        ensures { result ≡ keeps_order h self e }
    {
        fits(h, e) && self.key <= record::key(e)
    }

    // The node u is not in the cursor's entry yet, and the entry is not full.
    fn takes(self, u: usize, depth: usize) -> bool
        requires { Numbered u }
        ensures { result ≡ (not (has_node self.named u) && ltb self.count depth) }
    {
        !sets::has(self.named, u) && self.count < depth
    }

    // The neighbour is qualified and not in the entry yet, and the entry is not full.
    fn allowed(self, named: &NamedImage<'_>, e: Record) -> bool
        requires enters { Enters named.now.image.bytes.now self }
        requires next_bound { self.next < im_records named.now.image.bytes.now }
        requires record_of { RecordOf named.now.image.bytes.now self.next e }
        ensures { result ≡ rec_allowed named.now.image.bytes.now self.next }
    {
        let image = named.image;
        qualified(image.id(e.node), image.id(e.neighbor), e.level, e.digit)
            && self.takes(e.neighbor, image.header.depth)
    }

    // The record does not begin an own entry with another node than the owner.
    fn owner_first(self, e: Record, own: bool) -> bool
        ensures { result ≡ owner_leads self e own }
    {
        !own || self.count != 0 || e.neighbor == e.node
    }

    // Past a record of the cursor's entry that names u: whether u is allowed there, and whether an own entry is still led by its owner.
    fn pass(self, u: usize, allowed: bool, led: bool) -> Self
        requires numbered { Numbered u }
        requires next_bound { self.next < 65535 }
        requires count_bound { self.count < 65535 }
        ensures { result ≡ passed self u allowed led }
    {
        let place = self.next + 1;
        Cursor {
            next: place,
            key: self.key,
            count: self.count + 1,
            named: sets::add(self.named, u),
            forbidden: note(self.forbidden, allowed, place),
            misplaced: note(self.misplaced, led, place),
        }
    }

    // Judges the record at the cursor, as it was read, and goes past it: where its fields stand in the image is nothing to the cursor.
    pub fn judge(self, named: &NamedImage<'_>, e: Record, own: bool) -> Self
        requires follows { Follows named.now.image.bytes.now self }
        requires next_bound { self.next < im_records named.now.image.bytes.now }
        requires record_of { RecordOf named.now.image.bytes.now self.next e }
        requires small { Small e }
        requires in_order { keeps_order named.now.image.header self e ≡ true }
        requires own_value { own ≡ rec_own named.now.image.bytes.now self.next }
        ensures next_value { result.next ≡ self.next + 1 }
        ensures follows { Follows named.now.image.bytes.now result }
    {
        let c = self.enter(record::key(e));
        c.pass(e.neighbor, c.allowed(named, e), c.owner_first(e, own))
    }
}
