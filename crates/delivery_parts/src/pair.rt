// Two nodes, a sender x and a receiver y, that can learn from each other: the state, which their
// learning reads, and the tables, which it changes.
ghost use Rattle.delivery_parts.specs.Delivers.{Meets};

#[derive(Drop)]
pub struct Pair<'a> {
    pub state: &'a [u64],
    pub tables: &'a mut [u8],
    pub x: usize,
    pub y: usize,
    ghost meets: { Meets state.now tables.now x y },
}
