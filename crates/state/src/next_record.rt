// The records that a step gives a node, each from its record before: what a step does not name stays.
ghost use Rattle.std.specs.Prelude.{◌≡◌, ◌≤◌};
ghost use Rattle.model.specs.Memory.{notifying};
ghost use Rattle.model.specs.Join as join;
ghost use Rattle.state.specs.Loaded.{book_node};

use crate::record::Node;
use crate::sets;
use crate::status::Status;

// A new node, in system.
pub fn new_node(id: u32) -> Node
    ensures { book_node result ≡ join.new_node id }
{
    Node {
        id: id as u64,
        status: Status::IN_SYSTEM,
        level: 0,
        target: 0,
        pending: sets::EMPTY,
        notified: sets::EMPTY,
        requests: 0,
        notices: 0,
    }
}

// The record of a number that is no node's.
pub fn no_node() -> Node
    ensures { book_node result ≡ join.no_node }
{
    Node {
        id: 0,
        status: 0,
        level: 0,
        target: 0,
        pending: 0,
        notified: 0,
        requests: 0,
        notices: 0,
    }
}

// One in system; its counts stay.
fn in_system_node(r: Node) -> Node
    ensures { book_node result ≡ join.in_system_node (book_node r) }
{
    Node {
        status: Status::IN_SYSTEM,
        level: 0,
        target: 0,
        pending: sets::EMPTY,
        notified: sets::EMPTY,
        ..r
    }
}

// One that copies or waits, by its status and target: it has sent one request more. No node has sent more than 9.
pub fn joining_node(r: Node, status: u64, target: usize) -> Node
    requires { r.requests ≤ 9 }
    ensures { book_node result ≡ join.joining_node (book_node r) status target }
{
    Node {
        status,
        level: 0,
        target: target as u64,
        pending: sets::EMPTY,
        notified: sets::EMPTY,
        requests: r.requests + 1,
        ..r
    }
}

// One that notifies, with so many answered notices.
pub fn notifying_node(r: Node, level: u64, pending: u64, notified: u64, notices: u64) -> Node
    ensures { book_node result ≡ join.notifying_node (book_node r) level pending notified notices }
{
    Node {
        status: Status::NOTIFYING,
        level,
        target: 0,
        pending,
        notified,
        notices,
        ..r
    }
}

// A notifying node that has nobody left to notify is in system within the same step; the rest of its record is cleared but for its counts.
pub fn settle(r: Node) -> Node
    requires { r.status ≡ notifying }
    ensures { book_node result ≡ join.settle (book_node r) }
{
    if sets::is_empty(r.pending) {
        return in_system_node(r);
    }
    r
}
