// The rules of each status: document 01, "Identifiers and tables", last paragraph.
#![tactic(auto)]

ghost use Rattle.std.specs.Prelude.{◌≡◌};
ghost use Rattle.model.specs.Sound.{in_system_sound, status_sound};
ghost use Rattle.model.specs.Nodes.{all_nodes};
ghost use Rattle.model.proofs.Status.{IsNode};

use soundness_ids::checked::Checked;
use soundness_ids::member::Member;
use state::sets;
use state::status::Status;

mod joining;

// In system: no attach level and no target, and both sets empty.
#[tactic(auto, unfolding(model::specs::Sound::in_system_sound))]
fn is_in_system(node: &Member<'_>) -> bool
    ensures { result ≡ in_system_sound node.now.state.words.now node.now.number }
{
    let record = node.node;
    record.level == 0
        && record.target == 0
        && sets::is_empty(record.pending)
        && sets::is_empty(record.notified)
}

// The rules of the status of node x; a number above 3 is no status.
#[tactic(auto, unfolding(model::specs::Sound::status_sound))]
fn is_sound(state: &Checked<'_>, x: usize) -> bool
    requires { IsNode state.now.words.now x }
    ensures { result ≡ status_sound state.now.words.now x }
{
    let node = state.member(x);
    match node.node.status {
        Status::IN_SYSTEM => is_in_system(&node),
        Status::COPYING => joining::copying(&node),
        Status::WAITING => joining::waiting(&node),
        Status::NOTIFYING => soundness_notifying::sound(&node),
        _ => false,
    }
}

pub fn all(state: &Checked<'_>) -> bool
    ensures { result ≡ all_nodes state.now.words.now (status_sound state.now.words.now) }
{
    (1..state.settings.nodes + 1).all(|x| is_sound(state, x))
}
