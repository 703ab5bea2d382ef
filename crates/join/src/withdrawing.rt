// Withdrawing a join: the highest-numbered node is no node any more, and its record and its table are zero.
ghost use Rattle.std.specs.Prelude.{◌≡◌};
ghost use Rattle.model.specs.Join.{withdrawn};
ghost use Rattle.model.proofs.Sound.{Sound};
ghost use Rattle.state.specs.Lent.{memory};

use state::next_record::no_node;
use state::{record, settings};
use tables::clear::clear_table;

pub fn withdraw(state: &mut [u64], tables: &mut [u8])
    requires { Sound state.old tables.old }
    ensures { memory state.new tables.new ≡ withdrawn state.old tables.old }
{
    let x = settings::load(state).nodes;
    settings::store_nodes(state, x - 1);
    record::store(state, x, no_node());
    clear_table(tables, x);
}
