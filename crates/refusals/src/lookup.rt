// The refusals of lookup.
ghost use Rattle.std.specs.Prelude.{◌≡◌, IfOk};
ghost use Rattle.model.specs.Refusals.{lookup_refusal};
ghost use Rattle.model.proofs.Status.{IsNode};
ghost use Rattle.state.specs.Lent.{memory};
ghost use Rattle.answers.specs.Numbers.{answered};

use crate::sentences::{judged, node};
use answers::error::Refusal;
use network::network::Network;
use state::sets;

// The network, and the two ends as its nodes.
pub fn judge<'a>(
    state: &'a [u64],
    tables: &'a [u8],
    from: u64,
    to: u64,
    failed: u64,
) -> Result<(Network<'a>, usize, usize), Refusal>
    ensures refusal { answered result ≡ lookup_refusal (memory state.now tables.now) from to failed }
    ensures ok { IfOk result (λ r. (r.0.state.now ≡ state.now) × (r.0.tables.now ≡ tables.now)) }
    ensures ends { IfOk result (λ r. ((r.1 ≡ from) × IsNode r.0.state.now r.1) × ((r.2 ≡ to) × IsNode r.0.state.now r.2)) }
{
    let network = judged(state, tables)?;
    let u = node(&network, from)?;
    let z = node(&network, to)?;
    if sets::has_either(failed, u, z) {
        return Err(Refusal::HasFailed);
    }
    Ok((network, u, z))
}
