// The rules of a node that joins: whom it may ask, and that it has no attach level yet and both its sets are empty.
ghost use Rattle.std.specs.Prelude.{◌≡◌};
ghost use Rattle.model.specs.Memory.{target_of};
ghost use Rattle.model.specs.Nodes.{is_node};
ghost use Rattle.model.specs.Sound.{joining_sound, copying_sound, waiting_sound};

use soundness_ids::member::Member;
use state::{sets, settings};

// It asks a node.
fn asks_node(node: &Member<'_>) -> bool
    ensures { let s = node.now.state.words.now in
        result ≡ is_node s (target_of s node.now.number) }
{
    settings::is_node(node.state.words, node.node.target)
}

#[tactic(auto, unfolding(model::specs::Sound::joining_sound))]
fn is_at_rest(node: &Member<'_>) -> bool
    ensures { result ≡ joining_sound node.now.state.words.now node.now.number }
{
    let record = node.node;
    record.level == 0 && sets::is_empty(record.pending) && sets::is_empty(record.notified)
}

// A copying node asks a node in system.
#[tactic(auto, using(crate::proofs::StatusLaws::copying_is))]
pub fn copying(node: &Member<'_>) -> bool
    ensures { result ≡ copying_sound node.now.state.words.now node.now.number }
{
    asks_node(node) && node.state.is_in_system(node.node.target as usize) && is_at_rest(node)
}

// A waiting node asks one in system or notifying.
#[tactic(auto, unfolding(model::specs::Sound::waiting_sound))]
pub fn waiting(node: &Member<'_>) -> bool
    ensures { result ≡ waiting_sound node.now.state.words.now node.now.number }
{
    asks_node(node) && node.state.is_attached(node.node.target as usize) && is_at_rest(node)
}
