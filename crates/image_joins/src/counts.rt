// The counts of an image: for each node its requests and its notices, a byte each.
ghost use Rattle.std.specs.Prelude.{◌≡◌, ◌≤◌, ◌<◌, length};
ghost use Rattle.model.specs.Loops.{each_below};
ghost use Rattle.model.specs.Memory.{state_length};
ghost use Rattle.model.specs.Image.{im_nodes, im_counts, load_counts};
ghost use Rattle.state.specs.Loaded.{book_node};
ghost use Rattle.image_joins.specs.Sections.{counted_by};

use crate::sections::Sections;
use image_fields::header::byte;
use state::record;
use state::record::Node;

// The record of a node with these counts.
fn counted(r: Node, requests: u64, notices: u64) -> Node
    ensures { book_node result ≡ counted_by requests notices (book_node r) }
{
    Node {
        requests,
        notices,
        ..r
    }
}

// The two counts of the node with index k, which counts from 0, into its record.
fn load_one(state: &mut [u64], sections: &Sections<'_>, k: usize)
    requires state_long { state_length ≤ length state.old }
    requires as_many_as_nodes { im_counts sections.now.image.bytes.now ≡ im_nodes sections.now.image.bytes.now }
    requires k_bound { k < im_nodes sections.now.image.bytes.now }
    ensures { state.new ≡ load_counts sections.now.image.bytes.now k state.old }
{
    let bytes = sections.image.bytes;
    let at = sections.counts + 1 + 2 * k;
    let r = record::load(state, k + 1);
    record::store(
        state,
        k + 1,
        counted(r, byte(bytes, at) as u64, byte(bytes, at + 1) as u64),
    );
}

// Those of every node.
pub fn load(state: &mut [u64], sections: &Sections<'_>)
    requires state_long { state_length ≤ length state.old }
    requires as_many_as_nodes { im_counts sections.now.image.bytes.now ≡ im_nodes sections.now.image.bytes.now }
    ensures { state.new ≡ each_below (im_nodes sections.now.image.bytes.now) (load_counts sections.now.image.bytes.now) state.old }
{
    for k in 0..sections.image.header.nodes {
        load_one(state, sections, k);
    }
}
