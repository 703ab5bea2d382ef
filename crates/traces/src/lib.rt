// The check of a trace, on a sound network: one walk over its paths, from front to back, by a cursor.
// It goes on past a place without a node and a step that is not allowed, and keeps the first of each,
// but ends at the first count that is wrong. The time is in proportion to the trace's bytes.
#![tactic(auto)]

ghost use Rattle.std.specs.Prelude.{◌≡◌};
ghost use Rattle.answers.specs.Fields.{trace_fields};
ghost use Rattle.traces.specs.Judged.{sentences_refusal, answer_of};

use crate::cursor::start;
use answers::error::{Refusal, TraceRefused};
use network::network::Network;
use trace_reading::path_at;

mod cursor;
mod fault;
mod path;

// The first sentence that refuses the trace, 22, 9 or 23; and path and place that it is about.
pub fn judge(network: &Network<'_>, trace: &[u8]) -> Result<(), TraceRefused>
    ensures { trace_fields result ≡ answer_of network.now.state.now network.now.tables.now trace.now (sentences_refusal network.now.state.now network.now.tables.now trace.now) }
{
    if trace.is_empty() {
        return Err(Refusal::TraceCounts.into());
    }
    let paths = trace[0] as usize;
    let mut c = start();
    for _ in 0..paths {
        let Some(places) = path_at(trace, c.at) else {
            return Err(Refusal::TraceCounts.into());
        };
        c = c.pass(network, trace, places);
    }
    if c.at != trace.len() {
        return Err(Refusal::TraceCounts.into());
    }
    if let Some(fault) = c.unnamed {
        return Err(fault.refused(Refusal::NoSuchNode));
    }
    if let Some(fault) = c.forbidden {
        return Err(fault.refused(Refusal::StepNotAllowed));
    }
    Ok(())
}
