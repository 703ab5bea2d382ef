// The records, in the order of the book: node, level, digit, slot.
ghost use Rattle.std.specs.Prelude.{◌≡◌, ◌+◌, ◌≤◌, ◌<◌, length};
ghost use Rattle.model.specs.Image.{all_records, node_records};
ghost use Rattle.model.proofs.Status.{IsNode};
ghost use Rattle.putting.specs.Put.{Put};
ghost use Rattle.image_writing_parts.specs.Records.{slot_of, entry_of, records_of_level, table_records};

use crate::table::NodeTable;
use network::network::Network;
use tables::entry;

// The record of a slot, four bytes: node, level, digit, and the node in the slot; nothing for an empty slot.
fn slot(x: usize, i: usize, j: usize, u: u8, out: &mut [u8], at: usize) -> usize
    requires x_bound { x < 256 }
    requires i_bound { i < 256 }
    requires j_bound { j < 256 }
    requires room { at + length (slot_of x i j u) ≤ length out.old }
    ensures { Put out.old at (slot_of x i j u) out.new result }
{
    if u == 0 {
        return at;
    }
    // `as`: the value is proved to fit, and `u8::try_from` would answer an error that cannot come.
    putting::four(out, at, x as u8, i as u8, j as u8, u)
}

impl<'a> NodeTable<'a> {
    pub fn of(network: &Network<'a>, x: usize) -> NodeTable<'a>
        requires { IsNode network.now.state.now x }
        ensures { table_records result.digits result.base result.depth result.slots.now result.node ≡ node_records network.now.state.now network.now.tables.now x }
    {
        let s = network.settings();
        NodeTable {
            node: x,
            slots: network.table(x),
            base: s.base,
            digits: s.digits,
            depth: s.depth,
        }
    }

    // The records of an entry, slot by slot; most entries are empty.
    fn put_entry(&self, i: usize, j: usize, out: &mut [u8], at: usize) -> usize
        requires level { i < 8 }
        requires digit { j < 16 }
        requires room { at + length (entry_of self.now.depth self.now.slots.now self.now.node i j) ≤ length out.old }
        ensures { Put out.old at (entry_of self.now.depth self.now.slots.now self.now.node i j) out.new result }
    {
        if entry::empty(self.slots, i, j) {
            return at;
        }
        let mut end = at;
        for k in 0..self.depth {
            end = slot(self.node, i, j, self.slots[64 * i + 4 * j + k], out, end);
        }
        end
    }

    fn put_level(&self, i: usize, out: &mut [u8], at: usize) -> usize
        requires level { i < 8 }
        requires room { at + length (records_of_level self.now.base self.now.depth self.now.slots.now self.now.node i) ≤ length out.old }
        ensures { Put out.old at (records_of_level self.now.base self.now.depth self.now.slots.now self.now.node i) out.new result }
    {
        let mut end = at;
        for j in 0..self.base {
            end = self.put_entry(i, j, out, end);
        }
        end
    }

    fn put(&self, out: &mut [u8], at: usize) -> usize
        requires { at + length (table_records self.now.digits self.now.base self.now.depth self.now.slots.now self.now.node) ≤ length out.old }
        ensures { Put out.old at (table_records self.now.digits self.now.base self.now.depth self.now.slots.now self.now.node) out.new result }
    {
        let mut end = at;
        for i in 0..self.digits {
            end = self.put_level(i, out, end);
        }
        end
    }
}

// The records of all nodes.
pub fn all(network: &Network<'_>, out: &mut [u8], at: usize) -> usize
    requires { at + length (all_records network.now.state.now network.now.tables.now) ≤ length out.old }
    ensures { Put out.old at (all_records network.now.state.now network.now.tables.now) out.new result }
{
    let mut end = at;
    for x in 1..network.nodes() + 1 {
        end = NodeTable::of(network, x).put(out, end);
    }
    end
}
