// The records of an image: 9 over all of them, and then 10, 17 and 18 by what one walk over them finds.
ghost use Rattle.std.specs.Prelude.{◌≡◌};
ghost use Rattle.model.specs.Loops.{all_below};
ghost use Rattle.model.specs.Image.{im_records, rec_nodes_good};
ghost use Rattle.answers.specs.Fields.{read_fields};
ghost use Rattle.image_judging.specs.Judged.{records_refusal, answer_of};

use crate::named::NamedImage;
use crate::own::OwnMarks;
use crate::walk;
use answers::error::{ImageRefused, Refusal};
use image_fields::image::Image;

// Not 9: every record names nodes.
pub fn named(image: &Image<'_>) -> bool
    ensures { result ≡ all_below (im_records image.now.bytes.now) (rec_nodes_good image.now.bytes.now) }
{
    (0..image.header.records).all(|r| image.names_nodes(r))
}

// A refusal about the record at this place.
fn at(refusal: Refusal, place: usize) -> ImageRefused
    ensures { (result.refusal ≡ refusal) × (result.place ≡ place) }
{
    ImageRefused {
        refusal,
        place: place as u64,
    }
}

// 10, 17 and 18, once every record names nodes.
pub fn judge(named: &NamedImage<'_>) -> Result<(), ImageRefused>
    ensures { read_fields result ≡ answer_of named.now.image.bytes.now (records_refusal named.now.image.bytes.now) }
{
    let mut marks = OwnMarks::none();
    let f = walk::walk(named, &mut marks);
    if let Some(place) = f.disordered {
        return Err(at(Refusal::RecordOrder, place));
    }
    if let Some(place) = f.forbidden {
        return Err(at(Refusal::RecordNeighbor, place));
    }
    if !marks.all_marked(named.image.header) {
        return Err(at(Refusal::OwnEntry, 0));
    }
    if let Some(place) = f.misplaced {
        return Err(at(Refusal::OwnEntry, place));
    }
    Ok(())
}
