// The levels of a table: the owner is first in its own entry of each, and most levels hold nothing else.
ghost use Rattle.std.specs.Prelude.{◌≡◌, ◌<◌, ◌&&◌};
ghost use Rattle.model.specs.Loops.{all_below};
ghost use Rattle.model.specs.Memory as memory;
ghost use Rattle.soundness_tables.specs.TableFacts.{entry_exact, digits_rest_zero, level_exact};

use crate::member_table::MemberTable;
use crate::{entries, slots};
use state::zero;

// The entries of level i, and the unused ones from digit b on.
fn has_sound_entries(table: &MemberTable<'_>, i: usize) -> bool
    requires { i < 8 }
    ensures { let s = table.now.owner.state.words.now in
        let T = table.now.bytes.now in
        let entries = all_below (memory.base s) (entry_exact s table.now.owner.number T i) in
        result ≡ (entries && digits_rest_zero s T i) }
{
    let a = 64 * i;
    let b = a + 4 * table.owner.state.settings.base;
    let e = a + 64;
    entries::all(&table.row(i)) && zero::all_zero(&table.bytes[b..e])
}

// Level i: its owner first in its own entry and, where that is not all it holds, what else stands there.
#[tactic(auto, unfolding(crate::specs::TableFacts::level_exact))]
fn is_level_sound(table: &MemberTable<'_>, i: usize) -> bool
    requires { i < memory.digits table.now.owner.state.words.now }
    ensures { let owner = table.now.owner in
        result ≡ level_exact owner.state.words.now owner.number table.now.bytes.now i }
{
    let a = 64 * i;
    let e = a + 64;
    table.slot(i, ident::digit(table.owner.id(), i), 0) == table.owner.number
        && (slots::filled(&table.bytes[a..e]) == 1 || has_sound_entries(table, i))
}

pub fn all(table: &MemberTable<'_>) -> bool
    ensures { let s = table.now.owner.state.words.now in
        let is_sound = level_exact s table.now.owner.number table.now.bytes.now in
        result ≡ all_below (memory.digits s) is_sound }
{
    (0..table.owner.state.settings.digits).all(|i| is_level_sound(table, i))
}
