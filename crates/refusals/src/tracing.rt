// The refusals of a trace, with path and place.
ghost use Rattle.std.specs.Prelude.{◌≡◌};
ghost use Rattle.model.specs.Refusals.{trace_refusal};
ghost use Rattle.state.specs.Lent.{memory};
ghost use Rattle.answers.specs.Fields.{trace_fields};
ghost use Rattle.traces.specs.Judged.{answer_of};

use crate::sentences::judged;
use answers::error::TraceRefused;

pub fn judge(state: &[u64], tables: &[u8], trace: &[u8]) -> Result<(), TraceRefused>
    ensures { trace_fields result ≡ answer_of state.now tables.now trace.now (trace_refusal (memory state.now tables.now) trace.now) }
{
    let network = judged(state, tables)?;
    traces::judge(&network, trace)
}
