// The rules of the two counts of each node: document 02, ticket 3. They are asked where the statuses are sound: the target of a copying or waiting
// node is a node.
#![tactic(auto)]

ghost use Rattle.std.specs.Prelude.{◌≡◌, ◌+◌, eqb};
ghost use Rattle.model.specs.Memory.{node_of, set_size};
ghost use Rattle.model.specs.Nodes.{all_nodes};
ghost use Rattle.model.specs.Sound.{request_limit, notices_sound, counts_sound};
ghost use Rattle.model.proofs.Status.{IsNode, StatusOk};
ghost use Rattle.state.specs.Loaded.{book_node};
ghost use Rattle.soundness_counts.specs.CountFacts.{StatusesOk};

use soundness_ids::checked::Checked;
use soundness_ids::member::Member;
use state::record::Node;
use state::sets;
use state::status::Status;

// How many copy and wait requests the node may have sent.
#[tactic(auto, unfolding(model::specs::Sound::request_limit))]
fn limit(node: &Member<'_>) -> u64
    requires { StatusOk node.now.state.words.now node.now.number }
    ensures { result ≡ request_limit node.now.state.words.now node.now.number }
{
    match node.node.status {
        Status::COPYING => node.suffix_with(node.node.target as usize) + 1,
        Status::WAITING => node.suffix_with(node.node.target as usize) + 2,
        _ => node.state.settings.digits as u64 + 1,
    }
}

// A notifying node's answered notices are one less than the nodes it has notified, of which there is at least one.
fn is_one_less(notices: u64, notified: u64) -> bool
    ensures { result ≡ eqb (notices + 1) (set_size notified) }
{
    let size = sets::size(notified);
    size != 0 && notices == size - 1
}

#[tactic(auto, unfolding(model::specs::Sound::notices_sound))]
fn has_sound_notices(r: Node) -> bool
    ensures { result ≡ notices_sound (book_node r) }
{
    match r.status {
        Status::IN_SYSTEM => r.notices <= 62,
        Status::NOTIFYING => is_one_less(r.notices, r.notified),
        _ => r.notices == 0,
    }
}

#[tactic(auto, unfolding(model::specs::Sound::counts_sound))]
fn has_sound_counts(state: &Checked<'_>, x: usize) -> bool
    requires node { IsNode state.now.words.now x }
    requires status_ok { StatusOk state.now.words.now x }
    ensures { result ≡ counts_sound state.now.words.now x }
{
    let node = state.member(x);
    node.node.requests <= limit(&node) && has_sound_notices(node.node)
}

pub fn all(state: &Checked<'_>) -> bool
    requires { StatusesOk state.now.words.now }
    ensures { result ≡ all_nodes state.now.words.now (counts_sound state.now.words.now) }
{
    (1..state.settings.nodes + 1).all(|x| has_sound_counts(state, x))
}
