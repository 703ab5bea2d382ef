// Lookup.
ghost use Rattle.std.specs.Prelude.{◌≡◌};
ghost use Rattle.model.specs.Calls.{lookup_call};
ghost use Rattle.state.specs.Lent.{memory};
ghost use Rattle.answers.specs.Fields.{lookup_fields};
ghost use Rattle.engine.specs.Outcomes.{leaves};

use answers::error::Refusal;
use answers::lookup::Lookup;

// Follows the lookup from one node to another around the failed ones. Refusals: 1, 2, 9, 21.
pub fn lookup(
    state: &[u64],
    tables: &[u8],
    from: u64,
    to: u64,
    failed: u64,
) -> Result<Lookup, Refusal>
    ensures { leaves (memory state.now tables.now) (lookup_fields result) ≡ lookup_call (memory state.now tables.now) from to failed }
{
    let (network, u, z) = refusals::lookup::judge(state, tables, from, to, failed)?;
    Ok(routing::lookup(&network, u, z, failed))
}
