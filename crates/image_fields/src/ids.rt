// The ids of an image, four bytes each, the low one first.
ghost use Rattle.std.specs.Prelude.{◌≡◌};
ghost use Rattle.model.specs.Loops.{all_below, node};
ghost use Rattle.model.specs.Image.{im_nodes, im_id, im_id_valid, im_id_new};
ghost use Rattle.image_fields.specs.Parts.{ImageNode};

use crate::header::four;
use crate::image::Image;
use ident::valid_id;

impl<'a> Image<'a> {
    // The id of node x.
    pub fn id(&self, x: usize) -> u32
        requires { ImageNode self.now.bytes.now x }
        ensures { result ≡ im_id self.now.bytes.now x }
    {
        four(self.bytes, 2 + 4 * x)
    }

    // Not 7, of node x.
    fn is_valid(&self, x: usize) -> bool
        requires { ImageNode self.now.bytes.now x }
        ensures { result ≡ im_id_valid self.now.bytes.now x }
    {
        valid_id(self.header.base, self.header.digits, self.id(x))
    }

    // Not 7: every id is valid.
    pub fn ids_valid(&self) -> bool
        ensures { result ≡ all_below (im_nodes self.now.bytes.now) (node (im_id_valid self.now.bytes.now)) }
    {
        (1..self.header.nodes + 1).all(|x| self.is_valid(x))
    }

    // Not 8, of node x: no node before it has its id.
    fn is_new(&self, x: usize) -> bool
        requires { ImageNode self.now.bytes.now x }
        ensures { result ≡ im_id_new self.now.bytes.now x }
    {
        let own = self.id(x);
        (0..x - 1).all(|k| self.id(k + 1) != own)
    }

    // Not 8: no two ids are equal.
    pub fn ids_different(&self) -> bool
        ensures { result ≡ all_below (im_nodes self.now.bytes.now) (node (im_id_new self.now.bytes.now)) }
    {
        (1..self.header.nodes + 1).all(|x| self.is_new(x))
    }
}
