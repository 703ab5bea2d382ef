// The rules of the tables: document 01, "Identifiers and tables". Each node's table is handed on as one run of the lent table memory.
#![tactic(auto)]

ghost use Rattle.std.specs.Prelude.{◌≡◌, ◌≤◌, length};
ghost use Rattle.model.specs.Memory.{tables_length};
ghost use Rattle.model.specs.Sound.{table_sound, has_sound_table};
ghost use Rattle.model.specs.Nodes.{all_nodes};
ghost use Rattle.model.proofs.Status.{IsNode};

use member_table::MemberTable;
use soundness_ids::checked::Checked;
use state::zero;
use tables::part;

mod entries;
mod levels;
mod member_table;
mod row;
mod rows;
mod slots;

// The levels of the settings, and the unused ones from d on.
fn is_table_sound(table: &MemberTable<'_>) -> bool
    ensures { let owner = table.now.owner in
        result ≡ table_sound owner.state.words.now owner.number table.now.bytes.now }
{
    let a = 64 * table.owner.state.settings.digits;
    levels::all(table) && zero::all_zero(&table.bytes[a..512])
}

fn has_sound_table(state: &Checked<'_>, tables: &[u8], x: usize) -> bool
    requires tables_length_in_bounds { tables_length ≤ length tables.now }
    requires node { IsNode state.now.words.now x }
    ensures { result ≡ has_sound_table state.now.words.now tables.now x }
{
    let table = MemberTable {
        owner: state.member(x),
        bytes: part::lent(tables, x),
    };
    is_table_sound(&table)
}

pub fn all(state: &Checked<'_>, tables: &[u8]) -> bool
    requires { tables_length ≤ length tables.now }
    ensures { let s = state.now.words.now in
        result ≡ all_nodes s (has_sound_table s tables.now) }
{
    (1..state.settings.nodes + 1).all(|x| has_sound_table(state, tables, x))
}
