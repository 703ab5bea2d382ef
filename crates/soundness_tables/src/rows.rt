// A level as the code makes it, and which nodes are qualified for its entries.
ghost use Rattle.std.specs.Prelude.{◌≡◌, ◌<◌};
ghost use Rattle.model.specs.Nodes.{qualifies};
ghost use Rattle.model.proofs.Status.{IsNode};

use crate::member_table::MemberTable;
use crate::row::Row;
use state::record;

impl<'a> MemberTable<'a> {
    pub fn row(&self, i: usize) -> Row<'a>
        requires { i < 8 }
        ensures table { result.table ≡ self.now }
        ensures level { result.level ≡ i }
    {
        Row {
            table: *self,
            level: i,
            low: (self.owner.id() as u64) & (ident::suffix_mask(i) as u64),
            weight: 1 << (4 * i),
            mask: ident::suffix_mask(i + 1) as u64,
        }
    }
}

impl<'a> Row<'a> {
    // Node u is qualified for entry j of the level.
    pub fn is_qualified(&self, j: usize, u: usize) -> bool
        requires digit { j < 16 }
        requires node { IsNode self.now.table.owner.state.words.now u }
        ensures { let owner = self.now.table.owner in
            result ≡ qualifies owner.state.words.now owner.number self.now.level j u }
    {
        record::id(self.table.owner.state.words, u) & self.mask
            == self.low + self.weight * (j as u64)
    }
}
