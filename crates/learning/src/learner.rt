// The node whose table it is, and what it compares other nodes by, loaded once from the state.
ghost use Rattle.std.specs.Prelude.{◌≡◌};
ghost use Rattle.model.specs.Nodes.{suffix_of};
ghost use Rattle.learning.specs.Learners.{NodeReadable, LearnerOf};

use ident::common_suffix;
use state::{record, settings};

#[derive(Clone, Copy)]
pub struct Learner<'a> {
    pub state: &'a [u64],
    pub number: usize,
    pub id: u32,
    pub digits: usize,
    pub depth: usize,
}

impl<'a> Learner<'a> {
    pub fn load(state: &'a [u64], x: usize) -> Learner<'a>
        requires { NodeReadable state.now x }
        ensures number { result.number ≡ x }
        ensures state { result.state.now ≡ state.now }
        ensures learner_of { LearnerOf result.state.now result }
    {
        let s = settings::load(state);
        Learner {
            state,
            number: x,
            id: record::id(state, x) as u32,
            digits: s.digits,
            depth: s.depth,
        }
    }

    // The common suffix of the learner and node u.
    pub fn suffix(&self, u: usize) -> usize
        requires learner_of { LearnerOf self.now.state.now self.now }
        requires node_readable { NodeReadable self.now.state.now u }
        ensures { result ≡ suffix_of self.now.state.now self.now.number u }
    {
        common_suffix(self.digits, self.id, record::id(self.state, u) as u32)
    }
}
