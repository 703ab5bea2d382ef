// The exact check of a state: document 01, "Identifiers and tables", last paragraph, and of the counts document 02, ticket 3, in the order of the
// book's clauses.
#![tactic(auto)]

ghost use Rattle.std.specs.Prelude.{◌≡◌, not, ◌&&◌, ◌≤◌, length};
ghost use Rattle.model.specs.Ids.{settings_in_range};
ghost use Rattle.model.specs.Nodes.{all_nodes};
ghost use Rattle.model.specs.Sound as book;
ghost use Rattle.model.specs.Sound.{count_in_range, status_sound, counts_sound};
ghost use Rattle.model.specs.Refusals.{memory_short};
ghost use Rattle.model.specs.Memory.{state_length, tables_length};
ghost use Rattle.state.specs.Lent.{memory};
ghost use Rattle.state.specs.Loaded.{SettingsOf};
ghost use Rattle.state.specs.Checked.{Ranged};
ghost use Rattle.soundness.specs.Clauses.{nodes_sound, checked_sound};

use soundness_ids::checked::Checked;
use state::settings::Settings;
use state::{lent, settings};

mod unused;

// The lent memory is as long as it must be, and the state in it is sound.
pub fn sound(state: &[u64], tables: &[u8]) -> bool
    ensures { result ≡ (not (memory_short (memory state.now tables.now)) && book.sound state.now tables.now) }
{
    !lent::short(state, tables) && settings_first(state, tables)
}

// The settings and the number of nodes are in range.
fn is_in_range(s: Settings) -> bool
    ensures { result ≡ (settings_in_range s.base s.digits s.depth && count_in_range s.nodes) }
{
    ident::settings_in_range(s.base as u64, s.digits as u64, s.depth as u64)
        && (1..=64).contains(&s.nodes)
}

// The settings and the number of nodes are in range, and what comes after them is sound.
#[tactic(auto, unfolding(model::specs::Sound::sound))]
fn settings_first(state: &[u64], tables: &[u8]) -> bool
    requires state_length_in_bounds { state_length ≤ length state.now }
    requires tables_length_in_bounds { tables_length ≤ length tables.now }
    ensures { result ≡ book.sound state.now tables.now }
{
    let s = settings::load(state);
    is_in_range(s) && nodes_next(state, tables, s)
}

// What is asked of the nodes, their ids before anything that leans on them.
fn nodes_next(state: &[u64], tables: &[u8], s: Settings) -> bool
    requires ranged { Ranged state.now }
    requires settings_of { SettingsOf state.now s }
    requires tables_length_in_bounds { tables_length ≤ length tables.now }
    ensures { result ≡ nodes_sound state.now tables.now }
{
    soundness_ids::valid(state, s)
        && checked_next(
            &Checked {
                words: state,
                settings: s,
            },
            tables,
        )
}

// The statuses, and the counts, which lean on them.
fn statuses_and_counts(state: &Checked<'_>) -> bool
    ensures { let s = state.now.words.now in
        result ≡ (all_nodes s (status_sound s) && all_nodes s (counts_sound s)) }
{
    soundness_status::all(state) && soundness_counts::all(state)
}

// What leans on valid ids.
fn checked_next(state: &Checked<'_>, tables: &[u8]) -> bool
    requires { tables_length ≤ length tables.now }
    ensures { result ≡ checked_sound state.now.words.now tables.now }
{
    soundness_ids::different(state)
        && soundness_tables::all(state, tables)
        && statuses_and_counts(state)
        && unused::all(state, tables)
}
