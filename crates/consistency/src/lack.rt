// How many nodes an entry lacks.
ghost use Rattle.std.specs.Prelude.{◌≡◌, ◌-◌, ◌≤◌, min};
ghost use Rattle.model.specs.Memory.{set_size};
ghost use Rattle.model.specs.Tables.{entry_size};
ghost use Rattle.model.proofs.Tables.{GapFree};
ghost use Rattle.tables.specs.Places.{Entry};

use state::sets::{is_empty, size};
use tables::entry;

// By how many nodes qualify. An entry has no gap, so its last slot tells that it is full, and the slot
// of the last node that it must hold that it holds them all: most entries need no more than that.
pub fn lack(table: &[u8], depth: usize, i: usize, j: usize, qualified: u64) -> usize
    requires entry { Entry table.now depth i j }
    requires gap_free { GapFree depth table.now i j }
    requires le_depth { 1 ≤ depth }
    ensures { (result ≡ min depth (set_size qualified) - entry_size depth table.now i j) × (result ≤ 4) }
{
    let start = 64 * i + 4 * j;
    if is_empty(qualified) {
        return 0;
    }
    if table[start + (depth - 1)] != 0 {
        return 0;
    }
    let most = depth.min(size(qualified) as usize);
    if table[start + (most - 1)] != 0 {
        return 0;
    }
    most - entry::size(table, depth, i, j)
}
