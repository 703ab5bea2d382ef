// An image whose records name nodes, once its settings and counts are right.
ghost use Rattle.image_judging.specs.Judged.{RecordsNamed};

use image_fields::image::Image;

#[derive(Clone, Copy)]
pub struct NamedImage<'a> {
    pub image: Image<'a>,
    ghost named: { RecordsNamed image.bytes.now },
}
