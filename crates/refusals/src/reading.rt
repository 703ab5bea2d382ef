// The refusals of reading an image but 24, with the place of the record: 1, and 3 to 18 by the image itself. 24 asks for the state that the image gives.
ghost use Rattle.std.specs.Prelude.{◌≡◌};
ghost use Rattle.state.specs.Lent.{memory};
ghost use Rattle.answers.specs.Fields.{read_fields};
ghost use Rattle.image_judging.specs.Judged.{answer_of};
ghost use Rattle.refusals.specs.Refused.{read_tables_refusal};

use answers::error::{ImageRefused, Refusal};
use state::lent;

pub fn judge(state: &[u64], tables: &[u8], image: &[u8]) -> Result<(), ImageRefused>
    ensures { read_fields result ≡ answer_of image.now (read_tables_refusal (memory state.now tables.now) image.now) }
{
    if lent::short(state, tables) {
        return Err(Refusal::ShortMemory.into());
    }
    image_judging::judge(image)
}
