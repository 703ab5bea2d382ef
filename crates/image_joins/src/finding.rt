// Finding the joins and the counts of an image of version 2.
ghost use Rattle.std.specs.Prelude.{◌≡◌, true};
ghost use Rattle.model.specs.Image.{has_joins, im_version};

use crate::sections::Sections;
use image_fields::header::byte;
use image_fields::image::Image;

// The number of joins is the byte behind the records, and a join has 20 bytes.
pub fn find<'a>(image: &Image<'a>) -> Sections<'a>
    requires has_joins { has_joins (im_version image.now.bytes.now) ≡ true }
    ensures { result.image.bytes.now ≡ image.now.bytes.now }
{
    let end = 8 + 4 * image.header.nodes + 4 * image.header.records;
    let joins = byte(image.bytes, end);
    let first = end + 1;
    Sections {
        image: *image,
        first,
        joins,
        counts: first + 20 * joins,
    }
}
