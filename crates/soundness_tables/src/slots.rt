// The slots of a table: slot k, from 0 to 3, of entry (i, j) is byte 64i + 4j + k, and 0 where it is empty.
ghost use Rattle.std.specs.Prelude.{◌≡◌, cond, ◌<◌, ◌≤◌, length};
ghost use Rattle.model.specs.Loops.{all_below, count_below};
ghost use Rattle.model.specs.Tables.{slot_at};
ghost use Rattle.model.specs.Sound.{slot_differs, no_gap_before};
ghost use Rattle.soundness_tables.specs.TableFacts.{filled_byte, slot_filled};

use crate::member_table::MemberTable;
use crate::row::Row;

impl<'a> MemberTable<'a> {
    // The node in slot k of entry (i, j).
    pub fn slot(&self, i: usize, j: usize, k: usize) -> usize
        requires level { i < 8 }
        requires digit { j < 16 }
        requires slot { k < 4 }
        ensures { result ≡ slot_at self.now.bytes.now i j k }
    {
        self.bytes[64 * i + 4 * j + k] as usize
    }
}

impl<'a> Row<'a> {
    // The node in slot k of entry j.
    pub fn slot(&self, j: usize, k: usize) -> usize
        requires digit { j < 16 }
        requires slot { k < 4 }
        ensures { result ≡ slot_at self.now.table.bytes.now self.now.level j k }
    {
        self.table.slot(self.level, j, k)
    }

    // No gap before slot k: it is the first, or the slot before it is filled.
    pub fn has_no_gap_before(&self, j: usize, k: usize) -> bool
        requires digit { j < 16 }
        requires slot { k < 4 }
        ensures { result ≡ no_gap_before self.now.table.bytes.now self.now.level j k }
    {
        k == 0 || self.slot(j, k - 1) != 0
    }

    fn differs(&self, j: usize, u: usize, k: usize) -> bool
        requires digit { j < 16 }
        requires slot { k < 4 }
        ensures { result ≡ slot_differs self.now.table.bytes.now self.now.level j u k }
    {
        self.slot(j, k) != u
    }

    // No slot before k holds u.
    pub fn is_new_at(&self, j: usize, u: usize, k: usize) -> bool
        requires digit { j < 16 }
        requires slot { k < 4 }
        ensures { result ≡ all_below k (slot_differs self.now.table.bytes.now self.now.level j u) }
    {
        (0..k).all(|e| self.differs(j, u, e))
    }
}

// One for a filled slot.
fn one(slot: u8) -> u8
    ensures count { result ≡ cond (filled_byte slot) 1 0 }
    ensures most { result ≤ 1 }
{
    (slot != 0) as u8
}

// How many slots of a level are filled: counted with no early exit, so that wide instructions serve.
pub fn filled(level: &[u8]) -> u8
    requires { length level.now ≡ 64 }
    ensures { result ≡ count_below 64 (slot_filled level.now) }
{
    let mut count: u8 = 0;
    for slot in level {
        count += one(*slot);
    }
    count
}
