// A notification: y learns x, and x learns y's table. y is notified and no longer pending; the nodes of y's table that share at least as many
// digits with x as its attach level says become pending, but x and the notified. One notice more was answered.
ghost use Rattle.std.specs.Prelude.{◌≡◌};
ghost use Rattle.model.specs.Memory.{table_of};
ghost use Rattle.model.specs.Join.{deliver_notifying};
ghost use Rattle.delivery_parts.specs.Answers.{outcome, took_delivery};
ghost use Rattle.delivery_parts.specs.Delivers.{Delivers, notified_tables};
ghost use Rattle.delivery_parts.specs.Pairs.{SamePair};

use answers::delivery::{Delivery, Kind};
use delivery_parts::nodes::store_notifying;
use delivery_parts::pair::Pair;
use state::{record, sets};

// y learns x, and then x learns y's table.
fn notify(pair: &mut Pair<'_>)
    ensures notified { pair.new.tables.now ≡ notified_tables pair.old.state.now pair.old.tables.now pair.old.x pair.old.y }
    ensures same { SamePair pair.old pair.new }
    ensures same_tables { pair.new.tables.ghost_name ≡ pair.old.tables.ghost_name }
{
    pair.teach();
    pair.learn_from();
}

// Takes the memories: tried a Request of two &mut by value; invariant_of-request stays open.
pub fn deliver_notifying(state: &mut [u64], tables: &mut [u8], x: usize, y: usize) -> Delivery
    requires { Delivers state.old tables.old x y }
    ensures { outcome state.new tables.new result ≡ took_delivery state.old tables.old x y (deliver_notifying state.old x y (table_of tables.old x) (table_of tables.old y)) }
{
    let node = record::load(state, x);
    let notified = sets::add(node.notified, y);
    let left = sets::remove(node.pending, y);
    let mut pair = Pair {
        state,
        tables,
        x,
        y,
    };
    notify(&mut pair);
    let pending = pair.gather_theirs(node.level as usize, notified, left);
    let notices = node.notices + 1;
    let settled = store_notifying(state, x, node, node.level, pending, notified, notices);
    Delivery {
        kind: Kind::Notified,
        settled,
    }
}
