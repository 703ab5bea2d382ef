// Reading an image that nothing but 24 can refuse: its state in the lent memory. Version 2 is loaded into memory of our own first and judged there, so that
// a refusal changes no lent word and no lent byte.
#![tactic(auto)]

ghost use Rattle.std.specs.Prelude.{◌≡◌, true};
ghost use Rattle.model.specs.Image.{has_joins, im_version};
ghost use Rattle.answers.specs.Numbers.{answered};
ghost use Rattle.state.specs.Lent.{memory};
ghost use Rattle.image_loading.specs.Loads.{Loads};
ghost use Rattle.image_reading.specs.Reads.{Reads, read_memory, read_answer};

use answers::error::Refusal;
use image_fields::header;
use image_fields::image::Image;
use state::copy::copy_out;
use state::lent::{STATE_LENGTH, TABLES_LENGTH};

// Version 2, once its joins and counts are listed as they must be.
fn read_listed(state: &mut [u64], tables: &mut [u8], image: &Image<'_>) -> Result<(), Refusal>
    requires loads { Loads state.old tables.old image.now.bytes.now }
    requires has_joins { has_joins (im_version image.now.bytes.now) ≡ true }
    ensures memory { memory state.new tables.new ≡ read_memory state.old tables.old image.now.bytes.now }
    ensures refusal { answered result ≡ read_answer image.now.bytes.now }
{
    let mut words = [0u64; STATE_LENGTH];
    let mut table_bytes = [0u8; TABLES_LENGTH];
    image_loading::load(&mut words, &mut table_bytes, image);
    if !soundness::sound(&words, &table_bytes) {
        return Err(Refusal::UnsoundImage);
    }
    copy_out(state, &words);
    tables[..TABLES_LENGTH].copy_from_slice(&table_bytes);
    Ok(())
}

// Version 2.
fn read_joins(state: &mut [u64], tables: &mut [u8], image: &Image<'_>) -> Result<(), Refusal>
    requires reads { Reads state.old tables.old image.now.bytes.now }
    requires has_joins { has_joins (im_version image.now.bytes.now) ≡ true }
    ensures memory { memory state.new tables.new ≡ read_memory state.old tables.old image.now.bytes.now }
    ensures refusal { answered result ≡ read_answer image.now.bytes.now }
{
    if !image_joins::listed(image) {
        return Err(Refusal::UnsoundImage);
    }
    read_listed(state, tables, image)
}

// Either version: refused by 24, or taken. Nothing of version 1 is left to judge.
pub fn read(state: &mut [u64], tables: &mut [u8], image: &[u8]) -> Result<(), Refusal>
    requires { Reads state.old tables.old image.now }
    ensures memory { memory state.new tables.new ≡ read_memory state.old tables.old image.now }
    ensures refusal { answered result ≡ read_answer image.now }
{
    let image = Image::open(image);
    if header::has_joins(image.bytes) {
        return read_joins(state, tables, &image);
    }
    image_loading::load(state, tables, &image);
    Ok(())
}
