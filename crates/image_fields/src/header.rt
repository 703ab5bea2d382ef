// The head of an image: the settings after their count, 4, the number of nodes in byte 5, and behind the ids, of four bytes each, the number of
// records in two bytes, the low one first. Version 2 has two more counts behind the records, a byte each, of the joins under way and of the counts.
ghost use Rattle.std.specs.Prelude.{◌≡◌, true, not, ◌&&◌, ◌+◌, ◌*◌, ◌≤◌, ◌<◌, leb, length};
ghost use Rattle.model.specs.Image.{byte_at, four_at, eight_at, has_joins, im_version, im_nodes, im_records, records_end, im_length, length_right};
ghost use Rattle.model.specs.Refusals.{no_settings, counts_wrong};

// No image is longer.
const LONGEST: usize = 65535;

// The settings and the counts.
#[derive(Clone, Copy, Debug, PartialEq, Eq)]
pub struct Header {
    pub base: usize,
    pub digits: usize,
    pub depth: usize,
    pub nodes: usize,
    pub records: usize,
}

// The byte at a, as a number.
pub fn byte(image: &[u8], a: usize) -> usize
    requires { a < length image.now }
    ensures { (result ≡ byte_at image.now a) × (result < 256) }
{
    image[a] as usize
}

// The number that the four bytes from a on make, the low byte first.
pub fn four(image: &[u8], a: usize) -> u32
    requires { a + 4 ≤ length image.now }
    ensures { result ≡ four_at image.now a }
{
    u32::from_le_bytes([image[a], image[a + 1], image[a + 2], image[a + 3]])
}

// The same of eight bytes.
pub fn eight(image: &[u8], a: usize) -> u64
    requires { a + 8 ≤ length image.now }
    ensures { result ≡ eight_at image.now a }
{
    u64::from_le_bytes([
        image[a],
        image[a + 1],
        image[a + 2],
        image[a + 3],
        image[a + 4],
        image[a + 5],
        image[a + 6],
        image[a + 7],
    ])
}

// The image is of version 2, which has the joins under way and the counts.
pub fn has_joins(image: &[u8]) -> bool
    requires { 1 < length image.now }
    ensures { result ≡ has_joins (im_version image.now) }
{
    image[1] == 2
}

// 3: the image is shorter than its settings, which take 5 bytes, or does not begin with their count.
pub fn no_settings(image: &[u8]) -> bool
    ensures { result ≡ no_settings image.now }
{
    image.len() < 5 || image[0] != 4
}

// The number of records: the two bytes after the ids.
pub(crate) fn record_count(image: &[u8], nodes: usize) -> usize
    requires nodes_bound { nodes ≤ 64 }
    requires nodes_value { nodes ≡ im_nodes image.now }
    requires nodes_in_bounds { 8 + 4 * nodes ≤ length image.now }
    ensures { (result ≡ im_records image.now) × (result ≤ 65535) }
{
    let at = 6 + 4 * nodes;
    byte(image, at) + 256 * byte(image, at + 1)
}

// The image is not of this length, which its counts give, or longer than any may be.
fn size_wrong(image: &[u8], size: usize) -> bool
    requires size_value { size ≡ im_length image.now }
    ensures { result ≡ not (length_right image.now) }
{
    image.len() != size || LONGEST < image.len()
}

// An image of version 2 whose records end at `end` is not as long as its counts say, or longer than any may be: the number of joins stands behind the
// records, and the number of counts behind the joins.
fn joins_length_wrong(image: &[u8], end: usize) -> bool
    requires image_value { has_joins (im_version image.now) ≡ true }
    requires end_value { end ≡ records_end image.now }
    requires end_bound { end ≤ 8 + 4 * 64 + 4 * 65535 }
    ensures { result ≡ not (length_right image.now) }
{
    if image.len() <= end {
        return true;
    }
    let counts = end + 1 + 20 * byte(image, end);
    if image.len() <= counts {
        return true;
    }
    size_wrong(image, counts + 1 + 2 * byte(image, counts))
}

// The image is not as long as its counts say, or longer than any may be.
fn length_wrong(image: &[u8], nodes: usize) -> bool
    requires nodes_bound { nodes ≤ 64 }
    requires nodes_value { nodes ≡ im_nodes image.now }
    ensures { result ≡ not (length_right image.now) }
{
    let start = 8 + 4 * nodes;
    if image.len() < start {
        return true;
    }
    let end = start + 4 * record_count(image, nodes);
    if has_joins(image) {
        return joins_length_wrong(image, end);
    }
    size_wrong(image, end)
}

// 6: the number of nodes is missing or not from 1 to 64, or the length is wrong.
pub fn counts_wrong(image: &[u8]) -> bool
    ensures { result ≡ counts_wrong image.now }
{
    if image.len() < 6 {
        return true;
    }
    let nodes = byte(image, 5);
    !(1..=64).contains(&nodes) || length_wrong(image, nodes)
}

impl Header {
    // x is the number of a node.
    pub fn is_node(self, x: usize) -> bool
        ensures { result ≡ (leb 1 x && leb x self.nodes) }
    {
        (1..=self.nodes).contains(&x)
    }
}
