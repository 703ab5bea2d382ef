// Reading an image.
ghost use Rattle.std.specs.Prelude.{◌≡◌};
ghost use Rattle.model.specs.Calls.{read_call};
ghost use Rattle.state.specs.Lent.{memory};
ghost use Rattle.answers.specs.Fields.{read_fields};
ghost use Rattle.engine.specs.Outcomes.{leaves};

use answers::error::{ImageRefused, Refusal};

// Makes the network of the image in the lent memory, whatever it held; of version 1 every node is in system. The whole image is judged before one byte
// is written. Refusals: 1, 3, 4, 5, 6, 7, 8, 9, 10, 17, 18, 24; with 10, 17 and 18 the place of the record.
pub fn read(state: &mut [u64], tables: &mut [u8], image: &[u8]) -> Result<(), ImageRefused>
    ensures { leaves (memory state.new tables.new) (read_fields result) ≡ read_call (memory state.old tables.old) image.now }
{
    refusals::reading::judge(state, tables, image)?;
    image_reading::read(state, tables, image)?;
    Ok(())
}
