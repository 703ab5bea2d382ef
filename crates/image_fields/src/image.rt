// An image whose settings and counts are right, with its head: whoever holds one needs no other
// fact of them.
ghost use Rattle.image_fields.specs.Parts.{Headed};

use crate::header::Header;

#[derive(Clone, Copy)]
pub struct Image<'a> {
    pub bytes: &'a [u8],
    pub header: Header,
    ghost headed: { Headed bytes.now header },
}
