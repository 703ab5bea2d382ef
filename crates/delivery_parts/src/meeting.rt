// Learning of two nodes that meet, x and y, and gathering from their tables.
ghost use Rattle.std.specs.Prelude.{◌≡◌};
ghost use Rattle.model.specs.Memory.{table_of, with_table};
ghost use Rattle.model.specs.Learning as learning;
ghost use Rattle.model.specs.Join as join;
ghost use Rattle.delivery_parts.specs.Delivers.{Meets, Gathers, exchanged};
ghost use Rattle.delivery_parts.specs.Pairs.{SamePair};

use crate::pair::Pair;
use learning::gather::gather;
use learning::learn::{learn, learn_table};
use learning::learner::Learner;
use tables::part;

// x's table after it has learned y's: its own is copied to learn, y's is lent.
pub fn learned(state: &[u64], tables: &[u8], x: usize, y: usize) -> [u8; 512]
    requires { Meets state.now tables.now x y }
    ensures { result ≡ learning.learn_table state.now x (table_of tables.now y) (table_of tables.now x) }
{
    let learner = Learner::load(state, x);
    let mut own = part::copy_in(tables, x);
    learn_table(&mut own, &learner, part::lent(tables, y));
    own
}

// The set with every node of z's table that x is to notify.
pub fn gather_from(
    state: &[u64],
    tables: &[u8],
    x: usize,
    z: usize,
    level: usize,
    notified: u64,
    nodes: u64,
) -> u64
    requires { Gathers state.now tables.now x z }
    ensures { result ≡ join.gather state.now x level notified (table_of tables.now z) nodes }
{
    let learner = Learner::load(state, x);
    gather(&learner, level, notified, part::lent(tables, z), nodes)
}

impl<'a> Pair<'a> {
    // x's table after it has learned y's.
    pub fn learned(&self) -> [u8; 512]
        ensures { result ≡ learning.learn_table self.now.state.now self.now.x (table_of self.now.tables.now self.now.y) (table_of self.now.tables.now self.now.x) }
    {
        learned(self.state, self.tables, self.x, self.y)
    }

    // x learns y's table.
    pub fn learn_from(&mut self)
        ensures learned { self.new.tables.now ≡ with_table self.old.tables.now self.old.x (learning.learn_table self.old.state.now self.old.x (table_of self.old.tables.now self.old.y) (table_of self.old.tables.now self.old.x)) }
        ensures same { SamePair self.old self.new }
        ensures same_tables { self.new.tables.ghost_name ≡ self.old.tables.ghost_name }
    {
        let own = self.learned();
        part::copy_out(self.tables, self.x, &own);
    }

    // y's table after it has learned x.
    fn taught(&self) -> [u8; 512]
        ensures { result ≡ learning.learn self.now.state.now self.now.y self.now.x (table_of self.now.tables.now self.now.y) }
    {
        let learner = Learner::load(self.state, self.y);
        let mut theirs = part::copy_in(self.tables, self.y);
        learn(&mut theirs, &learner, self.x);
        theirs
    }

    // y learns x.
    pub fn teach(&mut self)
        ensures taught { self.new.tables.now ≡ with_table self.old.tables.now self.old.y (learning.learn self.old.state.now self.old.y self.old.x (table_of self.old.tables.now self.old.y)) }
        ensures same { SamePair self.old self.new }
        ensures same_tables { self.new.tables.ghost_name ≡ self.old.tables.ghost_name }
    {
        let theirs = self.taught();
        part::copy_out(self.tables, self.y, &theirs);
    }

    // x learns y's table as it stood before y learns x.
    pub fn exchange(&mut self)
        ensures exchanged { self.new.tables.now ≡ exchanged self.old.state.now self.old.tables.now self.old.x self.old.y }
        ensures same { SamePair self.old self.new }
        ensures same_tables { self.new.tables.ghost_name ≡ self.old.tables.ghost_name }
    {
        let before = self.learned();
        self.teach();
        part::copy_out(self.tables, self.x, &before);
    }

    // The set with every node of x's own table that x is to notify.
    pub fn gather_own(&self, level: usize, notified: u64, nodes: u64) -> u64
        ensures { result ≡ join.gather self.now.state.now self.now.x level notified (table_of self.now.tables.now self.now.x) nodes }
    {
        let x = self.x;
        gather_from(self.state, self.tables, x, x, level, notified, nodes)
    }

    // The same from y's table.
    pub fn gather_theirs(&self, level: usize, notified: u64, nodes: u64) -> u64
        ensures { result ≡ join.gather self.now.state.now self.now.x level notified (table_of self.now.tables.now self.now.y) nodes }
    {
        let (x, y) = (self.x, self.y);
        gather_from(self.state, self.tables, x, y, level, notified, nodes)
    }
}
