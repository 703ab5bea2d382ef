// A wait request to a node in system: where E, y's entry for x, is full, x learns y's table and goes on to the first node of E; else x attaches.
#![tactic(auto)]

ghost use Rattle.std.specs.Prelude.{◌≡◌, true};
ghost use Rattle.model.specs.Memory.{node_of, notices_of, with_node, add_node, table_of};
ghost use Rattle.model.specs.Nodes.{suffix_of};
ghost use Rattle.model.specs.Join.{notifying_node, gather, room_at_suffix, first_at_suffix, attach_level, deliver_sent_on, deliver_attached, deliver_waiting};
ghost use Rattle.state.specs.Loaded.{book_node};
ghost use Rattle.delivery_parts.specs.Answers.{outcome, took_delivery};
ghost use Rattle.delivery_parts.specs.Delivers.{Delivers};

use answers::delivery::{Delivery, Kind};
use delivery_parts::nodes::store_notifying;
use delivery_parts::pair::Pair;
use delivery_parts::request::Request;
use state::next_record::{joining_node, notifying_node};
use state::record::Node;
use state::status::Status;
use state::{record, sets};

// Takes the memories: tried a Request of two &mut by value; invariant_of-request stays open.
fn send_on(state: &mut [u64], tables: &mut [u8], x: usize, y: usize, first: usize) -> Delivery
    requires delivers { Delivers state.old tables.old x y }
    requires first_of_entry { first ≡ first_at_suffix state.old (table_of tables.old y) x y }
    ensures { outcome state.new tables.new result ≡ took_delivery state.old tables.old x y (deliver_sent_on state.old x y (table_of tables.old x) (table_of tables.old y)) }
{
    let node = record::load(state, x);
    let mut pair = Pair {
        state,
        tables,
        x,
        y,
    };
    pair.learn_from();
    record::store(state, x, joining_node(node, Status::WAITING, first));
    Delivery {
        kind: Kind::SentOn,
        settled: false,
    }
}

// The pending set of an attaching node: from both tables, each node that shares at least this many digits with x, but x and the notified.
fn to_notify(pair: &Pair<'_>, level: usize, notified: u64) -> u64
    ensures { result ≡ gather pair.now.state.now pair.now.x level notified (table_of pair.now.tables.now pair.now.y) (gather pair.now.state.now pair.now.x level notified (table_of pair.now.tables.now pair.now.x) 0) }
{
    let own = pair.gather_own(level, notified, sets::EMPTY);
    pair.gather_theirs(level, notified, own)
}

// x notifies from now on, at its attach level and with y notified. r is x's record before. Answers
// the level. From here on others learn x from that level.
// Takes the memories: tried a Request of two &mut by value; invariant_of-request stays open.
fn start_notifying(state: &mut [u64], tables: &[u8], x: usize, y: usize, r: Node) -> usize
    requires delivers { Delivers state.old tables.now x y }
    requires suffix_has_room { room_at_suffix state.old (table_of tables.now y) x y ≡ true }
    requires record_before { book_node r ≡ node_of state.old x }
    ensures { (result ≡ attach_level state.old (table_of tables.now y) x (suffix_of state.old x y)) × (state.new ≡ with_node state.old x (notifying_node (node_of state.old x) result 0 (add_node 0 y) (notices_of state.old x))) }
{
    let request = Request {
        state,
        tables,
        x,
        y,
    };
    let level = request.attach_level();
    let notified = sets::add(sets::EMPTY, y);
    record::store(
        state,
        x,
        notifying_node(r, level as u64, sets::EMPTY, notified, r.notices),
    );
    level
}

// Takes the memories: tried a Request of two &mut by value; invariant_of-request stays open.
fn attach(state: &mut [u64], tables: &mut [u8], x: usize, y: usize) -> Delivery
    requires delivers { Delivers state.old tables.old x y }
    requires suffix_has_room { room_at_suffix state.old (table_of tables.old y) x y ≡ true }
    ensures { outcome state.new tables.new result ≡ took_delivery state.old tables.old x y (deliver_attached state.old x y (table_of tables.old x) (table_of tables.old y)) }
{
    let node = record::load(state, x);
    let level = start_notifying(state, tables, x, y, node);
    let mut pair = Pair {
        state,
        tables,
        x,
        y,
    };
    pair.exchange();
    let notified = sets::add(sets::EMPTY, y);
    let pending = to_notify(&pair, level, notified);
    let settled = store_notifying(
        state,
        x,
        node,
        level as u64,
        pending,
        notified,
        node.notices,
    );
    Delivery {
        kind: Kind::Attached(level as u64),
        settled,
    }
}

// Takes the memories: tried a Request of two &mut by value; invariant_of-request stays open.
pub fn deliver_waiting(state: &mut [u64], tables: &mut [u8], x: usize, y: usize) -> Delivery
    requires { Delivers state.old tables.old x y }
    ensures { outcome state.new tables.new result ≡ took_delivery state.old tables.old x y (deliver_waiting state.old x y (table_of tables.old x) (table_of tables.old y)) }
{
    let request = Request {
        state,
        tables,
        x,
        y,
    };
    match request.first_of_full_entry() {
        None => attach(state, tables, x, y),
        Some(first) => send_on(state, tables, x, y, first),
    }
}
