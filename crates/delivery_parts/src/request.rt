// An outstanding request, from a sender x to a receiver y of a sound state, as it is read before
// the delivery changes anything.
ghost use Rattle.delivery_parts.specs.Delivers.{Delivers};
ghost use Rattle.delivery_parts.specs.DeliversProp.{Delivers-prop};

#[derive(Clone, Copy)]
pub struct Request<'a> {
    pub state: &'a [u64],
    pub tables: &'a [u8],
    pub x: usize,
    pub y: usize,
    ghost delivers: { Delivers state.now tables.now x y } by { Delivers-prop state.now tables.now x y },
}
