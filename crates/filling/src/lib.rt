// Filling short tables: document 02, ticket 10. How long the list of additions is, and the filled tables with that list.
#![tactic(auto)]

mod entries;
mod entry;
mod lowest;
pub mod measure;

ghost use Rattle.std.specs.Prelude.{◌≡◌, ◌++◌, ◌≤◌, length, drop};
ghost use Rattle.model.specs.Fill.{filling};
ghost use Rattle.model.proofs.Filling.{Steady};

use consistency::having::having;
use state::settings;

// Fills every entry, lists the additions from the start of out, and answers how long the list is. What lies past it stays.
pub fn fill(state: &[u64], tables: &mut [u8], out: &mut [u8]) -> usize
    requires steady { Steady state.now tables.old }
    requires tables_in_bounds { length (filling state.now tables.old).list ≤ length out.old }
    ensures { (tables.new ≡ (filling state.now tables.old).tables) × (out.new ≡ (filling state.now tables.old).list ++ drop (length (filling state.now tables.old).list) out.old) × (result ≡ length (filling state.now tables.old).list) }
{
    let nodes = settings::load(state).nodes;
    let sets = having(state);
    let mut end = 0;
    for k in 0..nodes {
        end = entries::node(state, tables, &sets, k + 1, out, end);
    }
    end
}
