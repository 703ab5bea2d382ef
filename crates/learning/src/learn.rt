// Learning a node u: it is appended to the entry of its digit at each level from its floor up to its
// common suffix with the learner, where it is not in the entry yet and the entry is not full. own is
// the learner's table.
ghost use Rattle.std.specs.Prelude.{◌≡◌};
ghost use Rattle.model.specs.Learning as learning;
ghost use Rattle.model.specs.Learning.{floor_of};
ghost use Rattle.learning.specs.Learners.{NodeReadable, LearnsAt, Learns, LearnsTable};

use crate::learner::Learner;
use ident::digit;
use state::record;
use state::status::Status;
use tables::entry;

// The level below which nobody learns u: its attach level while it notifies, else 0.
fn floor(state: &[u64], u: usize) -> u64
    requires { NodeReadable state.now u }
    ensures { result ≡ floor_of state.now u }
{
    let node = record::load(state, u);
    let status = Status {
        number: node.status,
    };
    status.floor(node.level)
}

// At level i, which is not below u's floor.
fn learn_at(own: &mut [u8; 512], learner: &Learner<'_>, u: usize, i: usize)
    requires { LearnsAt learner.now.state.now learner.now.depth u i }
    ensures { own.new ≡ learning.learn_at learner.now.state.now u i own.old }
{
    let depth = learner.depth;
    let id = record::id(learner.state, u) as u32;
    let j = digit(id, i);
    if !entry::holds(own, depth, i, j, u) && entry::size(own, depth, i, j) < depth {
        entry::append(own, depth, i, j, u);
    }
}

// The learner learns u. Levels below the floor change nothing, so the loop starts there.
pub fn learn(own: &mut [u8; 512], learner: &Learner<'_>, u: usize)
    requires { Learns learner.now.state.now learner.now u }
    ensures { own.new ≡ learning.learn learner.now.state.now learner.now.number u own.old }
{
    let floor = floor(learner.state, u) as usize;
    let suffix = learner.suffix(u);
    for i in floor..suffix + 1 {
        learn_at(own, learner, u, i);
    }
}

// The learner learns each node of a table but itself, in the order of level, digit and slot, which
// is that of the places. theirs is the answering node's table, a part of the lent table memory.
pub fn learn_table(own: &mut [u8; 512], learner: &Learner<'_>, theirs: &[u8])
    requires { LearnsTable learner.now.state.now learner.now theirs.now }
    ensures { own.new ≡ learning.learn_table learner.now.state.now learner.now.number theirs.now own.old }
{
    for u in &theirs[..512] {
        let u = *u as usize;
        if u != 0 && u != learner.number {
            learn(own, learner, u);
        }
    }
}
