// A node's table with the settings that say which of its slots are used.
ghost use Rattle.image_writing_parts.specs.Records.{Shape};

#[derive(Clone, Copy)]
pub struct NodeTable<'a> {
    pub node: usize,
    pub slots: &'a [u8],
    pub base: usize,
    pub digits: usize,
    pub depth: usize,
    ghost shape: { Shape slots.now digits base depth node },
}
