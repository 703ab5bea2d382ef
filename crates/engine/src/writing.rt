// Writing an image.
ghost use Rattle.std.specs.Prelude.{◌≡◌};
ghost use Rattle.model.specs.Calls.{write_call};
ghost use Rattle.state.specs.Lent.{memory};
ghost use Rattle.answers.specs.Fields.{number_fields};
ghost use Rattle.engine.specs.Outcomes.{writes};

use answers::error::Refusal;

// Writes the image of this version to out, and answers its length in bytes. Refusals: 1, 2, 4, 15, 16; 15 of version 1 alone.
pub fn write(state: &[u64], tables: &[u8], version: u64, out: &mut [u8]) -> Result<usize, Refusal>
    ensures { writes (memory state.now tables.now) out.new (number_fields result) ≡ write_call (memory state.now tables.now) version out.old }
{
    let network = refusals::writing::judge(state, tables, version, out)?;
    Ok(image_writing::write(&network, version, out))
}
