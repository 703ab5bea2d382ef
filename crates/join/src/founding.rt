// Founding: node 1 alone, in system, in its own entries and no other. Every place of the fixed lengths is decided.
ghost use Rattle.std.specs.Prelude.{◌≡◌, ◌≤◌, length};
ghost use Rattle.model.specs.Join.{founded};
ghost use Rattle.model.specs.Memory.{state_length, tables_length};
ghost use Rattle.state.specs.Lent.{memory};

use state::clear::clear;
use state::lent::{STATE_LENGTH, TABLES_LENGTH};
use state::next_record::new_node;
use state::settings::Settings;
use state::{record, settings};
use tables::own;

pub fn found(
    state: &mut [u64],
    tables: &mut [u8],
    base: usize,
    digits: usize,
    depth: usize,
    id: u32,
)
    requires state_length_in_bounds { state_length ≤ length state.old }
    requires tables_length_in_bounds { tables_length ≤ length tables.old }
    requires digits_bound { digits ≤ 8 }
    ensures { memory state.new tables.new ≡ founded state.old tables.old base digits depth id }
{
    clear(state, STATE_LENGTH);
    clear(tables, TABLES_LENGTH);
    settings::store(
        state,
        Settings {
            base,
            digits,
            depth,
            nodes: 1,
        },
    );
    record::store(state, 1, new_node(id));
    own::write_own(tables, digits, id, 1);
}
