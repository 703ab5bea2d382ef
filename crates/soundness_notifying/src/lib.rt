// The rules of a notifying node: it has no target, an attach level below d and somebody pending; and what its two sets may name.
#![tactic(auto)]

ghost use Rattle.std.specs.Prelude.{◌≡◌};
ghost use Rattle.model.specs.Sound.{notifying_sound};
ghost use Rattle.soundness_notifying.specs.Sets.{sets_sound};

use soundness_ids::member::Member;
use state::sets;

mod notified;
mod pending;

// Both sets name nodes alone, each of them one that may stand there.
fn sets_sound(owner: &Member<'_>) -> bool
    ensures { result ≡ sets_sound owner.now.state.words.now owner.now.number }
{
    let nodes = owner.state.settings.nodes;
    sets::only_below(owner.node.pending, nodes)
        && sets::only_below(owner.node.notified, nodes)
        && pending::is_sound(owner)
        && notified::is_sound(owner)
}

#[tactic(auto, unfolding(model::specs::Sound::notifying_sound))]
pub fn sound(owner: &Member<'_>) -> bool
    ensures { result ≡ notifying_sound owner.now.state.words.now owner.now.number }
{
    let node = owner.node;
    node.target == 0
        && node.level < owner.state.settings.digits as u64
        && !sets::is_empty(node.pending)
        && sets_sound(owner)
}
