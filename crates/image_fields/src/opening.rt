// Taking an image's head.
ghost use Rattle.std.specs.Prelude.{◌≡◌};
ghost use Rattle.image_fields.specs.Parts.{CountsRight};

use crate::header::{Header, byte, record_count};
use crate::image::Image;

impl<'a> Image<'a> {
    // Settings and counts of an image whose counts are right.
    pub fn open(bytes: &'a [u8]) -> Image<'a>
        requires { CountsRight bytes.now }
        ensures { result.bytes.now ≡ bytes.now }
    {
        let nodes = byte(bytes, 5);
        let records = record_count(bytes, nodes);
        Image {
            bytes,
            header: Header {
                base: byte(bytes, 2),
                digits: byte(bytes, 3),
                depth: byte(bytes, 4),
                nodes,
                records,
            },
        }
    }
}
