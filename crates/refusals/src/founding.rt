// The refusals of founding.
ghost use Rattle.std.specs.Prelude.{◌≡◌};
ghost use Rattle.model.specs.Refusals.{found_refusal};
ghost use Rattle.state.specs.Lent.{memory};
ghost use Rattle.answers.specs.Numbers.{answered};

use answers::error::Refusal;
use ident::{settings_in_range, valid_id};
use state::lent;

pub fn judge(
    state: &[u64],
    tables: &[u8],
    base: u64,
    digits: u64,
    depth: u64,
    id: u32,
) -> Result<(), Refusal>
    ensures { answered result ≡ found_refusal (memory state.now tables.now) base digits depth id }
{
    if lent::short(state, tables) {
        return Err(Refusal::ShortMemory);
    }
    if !settings_in_range(base, digits, depth) {
        return Err(Refusal::BadSetting);
    }
    if !valid_id(base as usize, digits as usize, id) {
        return Err(Refusal::BadId);
    }
    Ok(())
}
