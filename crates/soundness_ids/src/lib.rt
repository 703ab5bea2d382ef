// The ids of the nodes: each is valid, and no two are equal. A state with valid ids and its nodes
// are values that the checks after it take.
#![tactic(auto)]

ghost use Rattle.std.specs.Prelude.{◌≡◌};
ghost use Rattle.model.specs.Sound.{has_valid_id, has_new_id};
ghost use Rattle.state.specs.Loaded.{SettingsOf};
ghost use Rattle.model.proofs.Status.{IsNode};
ghost use Rattle.model.specs.Nodes.{all_nodes};
ghost use Rattle.state.specs.Checked.{Ranged};

use crate::checked::Checked;
use state::record;
use state::settings::Settings;

pub mod checked;
pub mod member;
pub mod reading;
mod row;

const LARGEST: u64 = 0xffff_ffff;

// A word above 32 bits has a bit above its eight digits.
fn is_valid(state: &[u64], s: Settings, x: usize) -> bool
    requires ranged { Ranged state.now }
    requires settings_of { SettingsOf state.now s }
    requires node { IsNode state.now x }
    ensures { result ≡ has_valid_id state.now x }
{
    let id = record::id(state, x);
    id <= LARGEST && ident::valid_id(s.base, s.digits, id as u32)
}

pub fn valid(state: &[u64], s: Settings) -> bool
    requires ranged { Ranged state.now }
    requires settings_of { SettingsOf state.now s }
    ensures { result ≡ all_nodes state.now (has_valid_id state.now) }
{
    (1..s.nodes + 1).all(|x| is_valid(state, s, x))
}

pub fn different(state: &Checked<'_>) -> bool
    ensures { result ≡ all_nodes state.now.words.now (has_new_id state.now.words.now) }
{
    let ids = row::of(state);
    (0..state.settings.nodes).all(|k| row::is_new(&ids, k))
}
