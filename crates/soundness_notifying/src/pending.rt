// The pending set: its nodes are in system or notifying, share at least as many digits with the owner as its attach level says, and are
// neither the owner nor notified.
ghost use Rattle.std.specs.Prelude.{◌≡◌};
ghost use Rattle.model.specs.Sound.{pending_sound};
ghost use Rattle.model.proofs.Status.{IsNode};
ghost use Rattle.model.specs.Nodes.{all_nodes};

use soundness_ids::member::Member;
use state::sets;

// Node u is not in the set, or may be.
#[tactic(auto, unfolding(model::specs::Sound::pending_sound))]
fn may_stand(owner: &Member<'_>, u: usize) -> bool
    requires { IsNode owner.now.state.words.now u }
    ensures { result ≡ pending_sound owner.now.state.words.now owner.now.number u }
{
    !sets::has(owner.node.pending, u)
        || (owner.state.is_attached(u)
            && owner.node.level <= owner.suffix_with(u)
            && u != owner.number
            && !sets::has(owner.node.notified, u))
}

pub fn is_sound(owner: &Member<'_>) -> bool
    ensures { let s = owner.now.state.words.now in
        result ≡ all_nodes s (pending_sound s owner.now.number) }
{
    (1..owner.state.settings.nodes + 1).all(|u| may_stand(owner, u))
}
