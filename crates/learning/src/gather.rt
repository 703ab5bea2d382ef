// Gathering from a table the nodes that the learner is to notify: those that share at least this
// many digits with it, but itself and the notified.
ghost use Rattle.std.specs.Prelude.{◌≡◌};
ghost use Rattle.model.specs.Join as join;
ghost use Rattle.learning.specs.Learners.{LearnerOf, TableReadable, ReadableUnless};

use crate::learner::Learner;
use state::sets;

// u, 0 for none, is one of them.
fn is_to_notify(learner: &Learner<'_>, level: usize, notified: u64, u: usize) -> bool
    requires learner_of { LearnerOf learner.now.state.now learner.now }
    requires readable { ReadableUnless learner.now.state.now u }
    ensures { result ≡ join.to_notify learner.now.state.now learner.now.number level notified u }
{
    u != 0 && u != learner.number && level <= learner.suffix(u) && !sets::has(notified, u)
}

// The set with every one of them in the table.
pub fn gather(learner: &Learner<'_>, level: usize, notified: u64, table: &[u8], nodes: u64) -> u64
    requires learner_of { LearnerOf learner.now.state.now learner.now }
    requires table_readable { TableReadable learner.now.state.now table.now }
    ensures { result ≡ join.gather learner.now.state.now learner.now.number level notified table.now nodes }
{
    let mut gathered = nodes;
    for u in &table[..512] {
        let u = *u as usize;
        if is_to_notify(learner, level, notified, u) {
            gathered = sets::add(gathered, u);
        }
    }
    gathered
}
