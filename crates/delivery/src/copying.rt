// A copy request: x learns y's table. If E, y's entry for x, is not full, x will wait at y. If it is full, x goes to its first node, to copy
// where that is in system and else to wait.
ghost use Rattle.std.specs.Prelude.{◌≡◌};
ghost use Rattle.model.specs.Memory.{table_of};
ghost use Rattle.model.specs.Join.{deliver_copying};
ghost use Rattle.state.specs.Loaded.{book_node};
ghost use Rattle.delivery_parts.specs.Answers.{outcome, took_delivery};
ghost use Rattle.delivery_parts.specs.Delivers.{Delivers};

use answers::delivery::{Delivery, Kind};
use delivery_parts::pair::Pair;
use delivery_parts::request::Request;
use state::next_record::joining_node;
use state::record;
use state::record::Node;
use state::status::Status;

// x's record with its next request.
fn next_request(request: &Request<'_>) -> Node
    ensures { book_node result ≡ (deliver_copying request.now.state.now request.now.x request.now.y (table_of request.now.tables.now request.now.x) (table_of request.now.tables.now request.now.y)).sender }
{
    let node = record::load(request.state, request.x);
    match request.first_of_full_entry() {
        None => joining_node(node, Status::WAITING, request.y),
        Some(first) => {
            if record::status(request.state, first) == Status::IN_SYSTEM {
                joining_node(node, Status::COPYING, first)
            } else {
                joining_node(node, Status::WAITING, first)
            }
        }
    }
}

// Takes the memories: tried a Request of two &mut by value; invariant_of-request stays open.
pub fn deliver_copying(state: &mut [u64], tables: &mut [u8], x: usize, y: usize) -> Delivery
    requires { Delivers state.old tables.old x y }
    ensures { outcome state.new tables.new result ≡ took_delivery state.old tables.old x y (deliver_copying state.old x y (table_of tables.old x) (table_of tables.old y)) }
{
    let node = next_request(&Request {
        state,
        tables,
        x,
        y,
    });
    let mut pair = Pair {
        state,
        tables,
        x,
        y,
    };
    pair.learn_from();
    record::store(state, x, node);
    Delivery {
        kind: Kind::Copied,
        settled: false,
    }
}
