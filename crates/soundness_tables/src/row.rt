// A level of a node's table, and what it asks of the nodes in its entries: level i asks for the
// owner's low i digits and the entry's digit before them. These i + 1 digits are one number, so what
// the level asks is made once for all its entries: the number that the owner's low digits make, the
// weight of the level's digit, and the mask of both.
ghost use Rattle.std.specs.Prelude.{◌≡◌, ◌+◌, ◌^◌, ◌<◌};
ghost use Rattle.model.specs.Ids.{low_digits, suffix_mask};
ghost use Rattle.model.specs.Memory.{id_of};

use crate::member_table::MemberTable;

#[derive(Clone, Copy)]
pub struct Row<'a> {
    pub table: MemberTable<'a>,
    pub level: usize,
    pub low: u64,
    pub weight: u64,
    pub mask: u64,
    ghost within: { level < 8 },
    ghost low_is: { low ≡ low_digits (id_of table.owner.state.words.now table.owner.number) level },
    ghost weight_is: { weight ≡ 16 ^ level },
    ghost mask_is: { mask ≡ suffix_mask (level + 1) },
}
