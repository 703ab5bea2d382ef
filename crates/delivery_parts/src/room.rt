// Room in the receiver's table for the sender: x sends to y, and h is their common suffix.
ghost use Rattle.std.specs.Prelude.{◌≡◌, IfNone, IfSome, true, false};
ghost use Rattle.model.specs.Memory.{table_of};
ghost use Rattle.model.specs.Nodes.{suffix_of};
ghost use Rattle.model.specs.Join as join;
ghost use Rattle.model.specs.Join.{room_at_suffix, first_at_suffix, attach_level};
ghost use Rattle.learning.specs.Learners.{LearnerOf};
ghost use Rattle.delivery_parts.specs.Delivers.{Level};

use crate::request::Request;
use ident::digit;
use learning::learner::Learner;
use tables::{entry, part};

// y's entry for x at level i, (i, digit i of x), is not full.
fn has_room(sender: &Learner<'_>, theirs: &[u8], i: usize) -> bool
    requires learner_of { LearnerOf sender.now.state.now sender.now }
    requires level { Level sender.now.state.now theirs.now i }
    ensures { result ≡ join.has_room sender.now.state.now theirs.now sender.now.number i }
{
    let size = entry::size(theirs, sender.depth, i, digit(sender.id, i));
    size < sender.depth
}

impl<'a> Request<'a> {
    // The first node of the paper's E, y's entry for x at level h before the step, where E is full;
    // none where it has room.
    pub fn first_of_full_entry(&self) -> Option<usize>
        ensures room { IfNone result (room_at_suffix self.now.state.now (table_of self.now.tables.now self.now.y) self.now.x self.now.y ≡ true) }
        ensures full { IfSome result (λ first. (room_at_suffix self.now.state.now (table_of self.now.tables.now self.now.y) self.now.x self.now.y ≡ false) × (first ≡ first_at_suffix self.now.state.now (table_of self.now.tables.now self.now.y) self.now.x self.now.y)) }
    {
        let sender = Learner::load(self.state, self.x);
        let suffix = sender.suffix(self.y);
        let theirs = part::lent(self.tables, self.y);
        if has_room(&sender, theirs, suffix) {
            return None;
        }
        entry::first(theirs, suffix, digit(sender.id, suffix))
    }

    // The attach level: the lowest from which on, up to h, y's entries for x have room at every
    // level. E has room, so it lies just above the highest full entry below h.
    pub fn attach_level(&self) -> usize
        requires { room_at_suffix self.now.state.now (table_of self.now.tables.now self.now.y) self.now.x self.now.y ≡ true }
        ensures { result ≡ attach_level self.now.state.now (table_of self.now.tables.now self.now.y) self.now.x (suffix_of self.now.state.now self.now.x self.now.y) }
    {
        let sender = Learner::load(self.state, self.x);
        let suffix = sender.suffix(self.y);
        let theirs = part::lent(self.tables, self.y);
        for i in (0..suffix).rev() {
            if !has_room(&sender, theirs, i) {
                return i + 1;
            }
        }
        0
    }
}
