// What is read of a checked state: a node, its id and whether it has attached; and of a node its
// id, and its common suffix with another.
ghost use Rattle.std.specs.Prelude.{◌≡◌, ◌≤◌};
ghost use Rattle.model.specs.Memory.{id_of, is_in_system, is_attached};
ghost use Rattle.model.specs.Nodes.{suffix_of};
ghost use Rattle.model.proofs.Status.{IsNode};

use crate::checked::Checked;
use crate::member::Member;
use state::{node, record};

impl<'a> Checked<'a> {
    pub fn member(&self, x: usize) -> Member<'a>
        requires { IsNode self.now.words.now x }
        ensures state { result.state ≡ self.now }
        ensures number { result.number ≡ x }
    {
        Member {
            state: *self,
            number: x,
            node: record::load(self.words, x),
        }
    }

    pub fn id(&self, x: usize) -> u32
        requires { IsNode self.now.words.now x }
        ensures { result ≡ id_of self.now.words.now x }
    {
        node::id(self.words, x)
    }

    pub fn is_in_system(&self, x: usize) -> bool
        requires { IsNode self.now.words.now x }
        ensures { result ≡ is_in_system self.now.words.now x }
    {
        node::in_system(self.words, x)
    }

    pub fn is_attached(&self, x: usize) -> bool
        requires { IsNode self.now.words.now x }
        ensures { result ≡ is_attached self.now.words.now x }
    {
        node::attached(self.words, x)
    }
}

impl<'a> Member<'a> {
    pub fn id(&self) -> u32
        ensures { result ≡ id_of self.now.state.words.now self.now.number }
    {
        self.state.id(self.number)
    }

    // The common suffix with node u, of 8 digits at most.
    pub fn suffix_with(&self, u: usize) -> u64
        requires { IsNode self.now.state.words.now u }
        ensures suffix { result ≡ suffix_of self.now.state.words.now self.now.number u }
        ensures most { result ≤ 8 }
    {
        ident::common_suffix(self.state.settings.digits, self.id(), self.state.id(u)) as u64
    }
}
