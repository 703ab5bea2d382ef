// The joins under way of an image: each is a node's number, its status, its attach level, its target, a byte each, and the nodes pending and notified in
// eight bytes each.
ghost use Rattle.std.specs.Prelude.{◌≡◌, true, ◌||◌, ◌-◌, ◌≤◌, ◌<◌, eqb, ltb, length};
ghost use Rattle.model.specs.Loops.{all_below, each_below};
ghost use Rattle.model.specs.Memory.{state_length};
ghost use Rattle.model.specs.Image.{im_joins, join_number, join_listed, joins_listed, load_join};
ghost use Rattle.state.specs.Loaded.{book_node};
ghost use Rattle.image_joins.specs.Sections.{JoinOf, joined_by};

use crate::sections::Sections;
use image_fields::header::{byte, eight};
use state::record;
use state::record::Node;
use state::status::Status;

#[derive(Clone, Copy, Debug, PartialEq, Eq)]
pub struct Join {
    pub node: usize,
    pub status: u64,
    pub level: u64,
    pub target: u64,
    pub pending: u64,
    pub notified: u64,
}

// Join q, which counts from 0.
fn read(sections: &Sections<'_>, q: usize) -> Join
    requires q_bound { q < im_joins sections.now.image.bytes.now }
    ensures { JoinOf sections.now.image.bytes.now q result }
{
    let bytes = sections.image.bytes;
    let at = sections.first + 20 * q;
    Join {
        node: byte(bytes, at),
        status: byte(bytes, at + 1) as u64,
        level: byte(bytes, at + 2) as u64,
        target: byte(bytes, at + 3) as u64,
        pending: eight(bytes, at + 4),
        notified: eight(bytes, at + 12),
    }
}

// A join of this node may be join q: it is the first, or the join before it is of a lower node.
fn rises(sections: &Sections<'_>, q: usize, node: usize) -> bool
    requires q_bound { q < im_joins sections.now.image.bytes.now }
    ensures { result ≡ (eqb q 0 || ltb (join_number sections.now.image.bytes.now (q - 1)) node) }
{
    q == 0 || read(sections, q - 1).node < node
}

// Join q is of a node, above that of the join before it, and under way.
fn is_listed(sections: &Sections<'_>, q: usize) -> bool
    requires q_bound { q < im_joins sections.now.image.bytes.now }
    ensures { result ≡ join_listed sections.now.image.bytes.now q }
{
    let j = read(sections, q);
    if !sections.image.header.is_node(j.node) {
        return false;
    }
    j.status != Status::IN_SYSTEM && rises(sections, q, j.node)
}

// The same of every join.
pub fn listed(sections: &Sections<'_>) -> bool
    ensures { result ≡ all_below (im_joins sections.now.image.bytes.now) (join_listed sections.now.image.bytes.now) }
{
    (0..sections.joins).all(|q| is_listed(sections, q))
}

// The record of a node with what a join holds.
fn joined(r: Node, j: Join) -> Node
    ensures { book_node result ≡ joined_by j (book_node r) }
{
    Node {
        status: j.status,
        level: j.level,
        target: j.target,
        pending: j.pending,
        notified: j.notified,
        ..r
    }
}

// Join q into the record of its node.
fn load_one(state: &mut [u64], sections: &Sections<'_>, q: usize)
    requires state_long { state_length ≤ length state.old }
    requires listed { joins_listed sections.now.image.bytes.now ≡ true }
    requires q_bound { q < im_joins sections.now.image.bytes.now }
    ensures { state.new ≡ load_join sections.now.image.bytes.now q state.old }
{
    let j = read(sections, q);
    let r = record::load(state, j.node);
    record::store(state, j.node, joined(r, j));
}

// Every join.
pub fn load(state: &mut [u64], sections: &Sections<'_>)
    requires state_long { state_length ≤ length state.old }
    requires listed { joins_listed sections.now.image.bytes.now ≡ true }
    ensures { state.new ≡ each_below (im_joins sections.now.image.bytes.now) (load_join sections.now.image.bytes.now) state.old }
{
    for q in 0..sections.joins {
        load_one(state, sections, q);
    }
}
