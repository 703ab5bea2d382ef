// A node of a checked state: its number and its record.
ghost use Rattle.std.specs.Prelude.{◌≡◌};
ghost use Rattle.model.specs.Memory.{node_of};
ghost use Rattle.model.proofs.Status.{IsNode};
ghost use Rattle.state.specs.Loaded.{book_node};

use crate::checked::Checked;
use state::record::Node;

#[derive(Clone, Copy)]
pub struct Member<'a> {
    pub state: Checked<'a>,
    pub number: usize,
    pub node: Node,
    ghost is_node: { IsNode state.words.now number },
    ghost node_is: { book_node node ≡ node_of state.words.now number },
}
