// The refusals of writing an image.
ghost use Rattle.std.specs.Prelude.{◌≡◌, not, ◌&&◌, IfOk};
ghost use Rattle.model.specs.Image.{has_joins};
ghost use Rattle.model.specs.Refusals.{some_not_in_system, write_refusal};
ghost use Rattle.state.specs.Lent.{memory};
ghost use Rattle.answers.specs.Numbers.{answered};

use crate::sentences::{all_in_system, judged};
use answers::error::Refusal;
use network::network::Network;

// Not 15: version 2 holds joins under way, and for version 1 every node is in system.
fn can_hold(network: &Network<'_>, version: u64) -> bool
    ensures { not result ≡ (not (has_joins version) && some_not_in_system network.now.state.now) }
{
    image_writing::has_joins(version) || all_in_system(network.state)
}

pub fn judge<'a>(
    state: &'a [u64],
    tables: &'a [u8],
    version: u64,
    out: &[u8],
) -> Result<Network<'a>, Refusal>
    ensures refusal { answered result ≡ write_refusal (memory state.now tables.now) version out.now }
    ensures ok { IfOk result (λ n. (n.state.now ≡ state.now) × (n.tables.now ≡ tables.now)) }
{
    let network = judged(state, tables)?;
    if !image_judging::is_version(version) {
        return Err(Refusal::ImageVersion);
    }
    if !can_hold(&network, version) {
        return Err(Refusal::JoinInFlight);
    }
    if out.len() < image_writing::image_length(&network, version) {
        return Err(Refusal::ShortOutput);
    }
    Ok(network)
}
