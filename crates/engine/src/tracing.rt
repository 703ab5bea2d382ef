// The check of a trace.
ghost use Rattle.std.specs.Prelude.{◌≡◌};
ghost use Rattle.model.specs.Calls.{trace_call};
ghost use Rattle.state.specs.Lent.{memory};
ghost use Rattle.answers.specs.Fields.{trace_fields};
ghost use Rattle.engine.specs.Outcomes.{leaves};

use answers::error::TraceRefused;

// Accepts a trace of another router whose every step goes to a node of the entry that the lookup rule names. Refusals: 1, 2, 22, 9, 23, in this order;
// with 9 and 23 path and place.
pub fn trace(state: &[u64], tables: &[u8], trace: &[u8]) -> Result<(), TraceRefused>
    ensures { leaves (memory state.now tables.now) (trace_fields result) ≡ trace_call (memory state.now tables.now) trace.now }
{
    refusals::tracing::judge(state, tables, trace)
}
