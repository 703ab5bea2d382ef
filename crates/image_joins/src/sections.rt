// Where the joins and the counts of an image of version 2 stand.
ghost use Rattle.image_joins.specs.Places.{SectionsAt};

use image_fields::image::Image;

// Where the first join stands, how many joins there are, and where the count of the counts stands, behind the last join.
#[derive(Clone, Copy)]
pub struct Sections<'a> {
    pub image: Image<'a>,
    pub first: usize,
    pub joins: usize,
    pub counts: usize,
    ghost found: { SectionsAt image.bytes.now first joins counts },
}
