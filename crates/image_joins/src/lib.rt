// Sections four and five of an image of version 2, the joins under way and the counts: whether they are listed as they must be, and loaded into a state
// that holds the settings and the ids.
#![tactic(auto)]

ghost use Rattle.std.specs.Prelude.{◌≡◌, true, ◌≤◌, length};
ghost use Rattle.model.specs.Memory.{state_length};
ghost use Rattle.model.specs.Image.{has_joins, im_version, joins_listed, loaded_joins};

use crate::finding::find;
use image_fields::header::byte;
use image_fields::image::Image;

mod counts;
mod finding;
mod joins;
mod sections;

// Of 24 what the bytes decide: each join is of a node, above that of the join before it, and under way, and the counts are as many as the nodes.
pub fn listed(image: &Image<'_>) -> bool
    requires has_joins { has_joins (im_version image.now.bytes.now) ≡ true }
    ensures { result ≡ joins_listed image.now.bytes.now }
{
    let sections = find(image);
    joins::listed(&sections) && byte(image.bytes, sections.counts) == image.header.nodes
}

// The joins under way and the counts, each in the record of its node.
pub fn load(state: &mut [u64], image: &Image<'_>)
    requires state_long { state_length ≤ length state.old }
    requires has_joins { has_joins (im_version image.now.bytes.now) ≡ true }
    requires listed { joins_listed image.now.bytes.now ≡ true }
    ensures { state.new ≡ loaded_joins image.now.bytes.now state.old }
{
    let sections = find(image);
    joins::load(state, &sections);
    counts::load(state, &sections);
}
