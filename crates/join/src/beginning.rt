// Beginning a join: the node with the next number copies, from the gateway first, and stands in its own entries and no other.
ghost use Rattle.std.specs.Prelude.{◌≡◌, ◌+◌};
ghost use Rattle.model.specs.Memory.{node_count};
ghost use Rattle.model.specs.Join.{begun};
ghost use Rattle.state.specs.Lent.{memory};
ghost use Rattle.join.specs.Begins.{Begins};

use state::next_record::{joining_node, new_node};
use state::status::Status;
use state::{record, settings};
use tables::own;

// Answers the new node's number.
pub fn begin(state: &mut [u64], tables: &mut [u8], id: u32, gateway: usize) -> usize
    requires { Begins state.old tables.old }
    ensures { (memory state.new tables.new ≡ begun state.old tables.old id gateway) × (result ≡ node_count state.old + 1) }
{
    let s = settings::load(state);
    let x = s.nodes + 1;
    settings::store_nodes(state, x);
    let node = joining_node(new_node(id), Status::COPYING, gateway);
    record::store(state, x, node);
    own::write_own(tables, s.digits, id, x);
    x
}
