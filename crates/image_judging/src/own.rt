// Each own entry has a record: a byte for each node and level is marked when a record of the node's own entry of that level is met.
ghost use Rattle.std.specs.Prelude.{◌≡◌, ◌≤◌, ◌<◌, replicate};
ghost use Rattle.model.specs.Loops.{all_below, node};
ghost use Rattle.state.specs.Loaded.{Numbered};
ghost use Rattle.image_judging.specs.Marks.{is_marked, levels_marked, marked_by};

use image_fields::header::Header;
use image_fields::record::Record;

// The marks of 64 nodes with 8 levels each, 1 where such a record was met and else 0.
#[derive(Clone, Copy, Debug, PartialEq, Eq)]
pub struct OwnMarks {
    pub bytes: [u8; 512],
}

impl OwnMarks {
    pub fn none() -> OwnMarks
        ensures { result.bytes ≡ replicate 512 0 }
    {
        OwnMarks { bytes: [0; 512] }
    }

    // Marks the entry of a record, if that is an own entry.
    pub fn mark(&mut self, e: Record, own: bool)
        requires numbered { Numbered e.node }
        requires level_bound { e.level < 8 }
        ensures { self.new.bytes ≡ marked_by e own self.old.bytes }
    {
        if own {
            self.bytes[8 * (e.node - 1) + e.level] = 1;
        }
    }

    // A record of x's own entry of level i was met.
    fn is_marked(&self, x: usize, i: usize) -> bool
        requires numbered { Numbered x }
        requires level_bound { i < 8 }
        ensures { result ≡ is_marked self.now.bytes x i }
    {
        self.bytes[8 * (x - 1) + i] == 1
    }

    // All levels of x are marked.
    fn levels_marked(&self, digits: usize, x: usize) -> bool
        requires numbered { Numbered x }
        requires digits_bound { digits ≤ 8 }
        ensures { result ≡ levels_marked self.now.bytes digits x }
    {
        (0..digits).all(|i| self.is_marked(x, i))
    }

    // All levels of all nodes are marked.
    pub fn all_marked(&self, h: Header) -> bool
        requires nodes_bound { h.nodes ≤ 64 }
        requires digits_bound { h.digits ≤ 8 }
        ensures { result ≡ all_below h.nodes (node (levels_marked self.now.bytes h.digits)) }
    {
        (1..h.nodes + 1).all(|x| self.levels_marked(h.digits, x))
    }
}
