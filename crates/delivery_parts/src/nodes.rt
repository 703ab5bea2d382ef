// The record of a node that notifies, stored.
ghost use Rattle.std.specs.Prelude.{◌≡◌, eqb};
ghost use Rattle.model.specs.Memory.{with_node};
ghost use Rattle.model.specs.Join as join;
ghost use Rattle.state.specs.Loaded.{Placed, book_node};

use state::next_record::{notifying_node, settle};
use state::record::Node;
use state::{record, sets};

// r is x's record before. Answers whether x settled.
pub fn store_notifying(
    state: &mut [u64],
    x: usize,
    r: Node,
    level: u64,
    pending: u64,
    notified: u64,
    notices: u64,
) -> bool
    requires { Placed state.old x }
    ensures { (state.new ≡ with_node state.old x (join.settle (join.notifying_node (book_node r) level pending notified notices))) × (result ≡ eqb pending 0) }
{
    let node = notifying_node(r, level, pending, notified, notices);
    record::store(state, x, settle(node));
    sets::is_empty(pending)
}
