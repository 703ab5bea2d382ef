// A line for each entry of a table that is not empty, by rising level and digit. An entry's line has at most 122 bytes, a level's 16
// lines 1,952 and a table's 8 levels 15,616: a number is given room for 20 digits.
ghost use Rattle.std.specs.Prelude.{Some, ◌+◌, ◌≤◌, ◌<◌, ◌++◌, length};
ghost use Rattle.model.specs.Loops.{join_below};
ghost use Rattle.putting.specs.Put.{Put};
ghost use Rattle.tables.specs.Places.{Entry};
ghost use Rattle.text.specs.Ascii.{ascii};
ghost use Rattle.replay_table.specs.TableText.{slot_text, entry_text, level_text, entries_text};
ghost use Rattle.replay_table.specs.Shape.{Shape};

use putting::piece;
use std::fmt;
use tables::entry::first;

// The neighbour in slot k; nothing where the slot is empty.
fn slot(table: &[u8], i: usize, j: usize, k: usize, out: &mut [u8], at: usize) -> usize
    requires entry { Entry table.now 4 i j }
    requires k_bound { k < 4 }
    requires at_in_bounds { at + 21 ≤ length out.old }
    ensures put { Put out.old at (slot_text table.now i j k) out.new result }
    ensures upper_bound { result ≤ at + 21 }
{
    let node = table[64 * i + 4 * j + k];
    if node == 0 {
        return at;
    }
    text::labelled(out, at, b" ", node as u64)
}

// The neighbours of an entry, in slot order.
fn neighbors(table: &[u8], depth: usize, i: usize, j: usize, out: &mut [u8], at: usize) -> usize
    requires entry { Entry table.now depth i j }
    requires at_in_bounds { at + 84 ≤ length out.old }
    ensures put { Put out.old at (join_below depth (slot_text table.now i j)) out.new result }
    ensures upper_bound { result ≤ at + 84 }
{
    let mut end = at;
    for k in 0..depth {
        end = slot(table, i, j, k, out, end);
    }
    end
}

// The rest of an entry's line behind its level and digit.
fn listed(table: &[u8], depth: usize, i: usize, j: usize, out: &mut [u8], at: usize) -> usize
    requires entry { Entry table.now depth i j }
    requires at_in_bounds { at + 86 ≤ length out.old }
    ensures put { Put out.old at (ascii ":" ++ (join_below depth (slot_text table.now i j) ++ ascii "\n")) out.new result }
    ensures upper_bound { result ≤ at + 86 }
{
    let second = piece(out, at, b":");
    let third = neighbors(table, depth, i, j, out, second);
    piece(out, third, b"\n")
}

// Nothing for an empty entry.
fn entry(table: &[u8], depth: usize, i: usize, j: usize, out: &mut [u8], at: usize) -> usize
    requires entry { Entry table.now depth i j }
    requires at_in_bounds { at + 122 ≤ length out.old }
    ensures put { Put out.old at (entry_text depth table.now i j) out.new result }
    ensures upper_bound { result ≤ at + 122 }
{
    if first(table, i, j).is_none() {
        return at;
    }
    let second = text::labelled(out, at, b"  level ", i as u64);
    let third = piece(out, second, b" digit ");
    let fourth = text::hex(out, third, j as u64, 1);
    listed(table, depth, i, j, out, fourth)
}

// The entries of level i, by rising digit.
fn level(table: &[u8], base: usize, depth: usize, i: usize, out: &mut [u8], at: usize) -> usize
    requires shape { Shape table.now 8 base depth }
    requires i_bound { i < 8 }
    requires at_in_bounds { at + 1952 ≤ length out.old }
    ensures put { Put out.old at (level_text base depth table.now i) out.new result }
    ensures upper_bound { result ≤ at + 1952 }
{
    let mut end = at;
    for j in 0..base {
        end = entry(table, depth, i, j, out, end);
    }
    end
}

// Puts the entries of a table, by rising level, at this place, and answers the place behind them.
pub fn entries(
    table: &[u8],
    digits: usize,
    base: usize,
    depth: usize,
    out: &mut [u8],
    at: usize,
) -> usize
    requires shape { Shape table.now digits base depth }
    requires at_in_bounds { at + 15616 ≤ length out.old }
    ensures put { Put out.old at (entries_text digits base depth table.now) out.new result }
    ensures upper_bound { result ≤ at + 15616 }
{
    let mut end = at;
    for i in 0..digits {
        end = level(table, base, depth, i, out, end);
    }
    end
}

// An entry of a table and its neighbours in slot order; nothing where it is empty.
#[derive(Clone, Copy)]
pub struct Line<'a> {
    pub table: &'a [u8],
    pub depth: usize,
    pub level: usize,
    pub digit: usize,
    ghost stands: { Entry table.now depth level digit },
}

impl<'a> fmt::Display for Line<'a> {
    ghost output = { λ l. Some (entry_text l.depth l.table.now l.level l.digit) };

    fn fmt<W: fmt::Write>(&self, f: &mut fmt::Formatter<W>) -> fmt::Result {
        let mut room = [0; 122];
        let end = entry(self.table, self.depth, self.level, self.digit, &mut room, 0);
        text::shown(&room[..end], f)
    }
}
