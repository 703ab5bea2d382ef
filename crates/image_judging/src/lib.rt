// Judging an image of bytes, sentence by sentence: document 01, "The image" and "What a call declines", and document 02, Tickets 2 and 9. Nothing is
// asked of the bytes or of their number; the time is in proportion to the number of records.
#![tactic(auto)]

ghost use Rattle.std.specs.Prelude.{◌≡◌, ◌<◌, length, IfOk};
ghost use Rattle.model.specs.Image.{is_version, im_version};
ghost use Rattle.model.specs.Refusals.{other_version};
ghost use Rattle.answers.specs.Numbers.{answered};
ghost use Rattle.answers.specs.Fields.{read_fields};
ghost use Rattle.image_judging.specs.Judged.{names_refusal, early_refusal, tables_refusal, answer_of};

use crate::named::NamedImage;
use answers::error::{ImageRefused, Refusal};
use ident::settings_in_range;
use image_fields::header;
use image_fields::header::byte;
use image_fields::image::Image;

mod cursor;
mod named;
mod own;
mod records;
mod walk;

// There is such a version.
pub fn is_version(version: u64) -> bool
    ensures { result ≡ is_version version }
{
    version == 1 || version == 2
}

// 4: the image's version is none.
fn other_version(image: &[u8]) -> bool
    requires { 1 < length image.now }
    ensures { result ≡ other_version (im_version image.now) }
{
    !is_version(byte(image, 1) as u64)
}

// 7 to 9, once the counts are right.
fn name_nodes<'a>(image: Image<'a>) -> Result<NamedImage<'a>, Refusal>
    ensures refusal { answered result ≡ names_refusal image.entry.bytes.now }
    ensures ok { IfOk result (λ named. named.image.bytes.now ≡ image.entry.bytes.now) }
{
    if !image.ids_valid() {
        return Err(Refusal::BadId);
    }
    if !image.ids_different() {
        return Err(Refusal::IdTaken);
    }
    if !records::named(&image) {
        return Err(Refusal::NoSuchNode);
    }
    Ok(NamedImage { image })
}

// 3 to 9.
fn open<'a>(image: &'a [u8]) -> Result<NamedImage<'a>, Refusal>
    ensures refusal { answered result ≡ early_refusal image.now }
    ensures ok { IfOk result (λ named. named.image.bytes.now ≡ image.now) }
{
    if header::no_settings(image) {
        return Err(Refusal::NotAnImage);
    }
    if other_version(image) {
        return Err(Refusal::ImageVersion);
    }
    if !settings_in_range(
        byte(image, 2) as u64,
        byte(image, 3) as u64,
        byte(image, 4) as u64,
    ) {
        return Err(Refusal::BadSetting);
    }
    if header::counts_wrong(image) {
        return Err(Refusal::ImageCounts);
    }
    name_nodes(Image::open(image))
}

// The first sentence but 24 that refuses the image, 3 to 10, 17 or 18, and the place of the record
// that it is about.
pub fn judge(image: &[u8]) -> Result<(), ImageRefused>
    ensures { read_fields result ≡ answer_of image.now (tables_refusal image.now) }
{
    let image = open(image)?;
    records::judge(&image)
}
