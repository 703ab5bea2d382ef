// Short entries filled in the order of an image, each addition listed in out. The answer is the place behind the last.
ghost use Rattle.std.specs.Prelude.{◌≤◌, ◌<◌};
ghost use Rattle.model.specs.Memory as memory;
ghost use Rattle.model.specs.Fill.{lowest_absent, short_by, added, fill_entry, fill_level, fill_node};
ghost use Rattle.model.proofs.Status.{IsNode};
ghost use Rattle.model.proofs.Filling.{Steady};
ghost use Rattle.consistency.specs.NodeSets.{Having, Sharing};
ghost use Rattle.filling.specs.Sofar.{sofar, Fits, Listed};

use crate::entry::Entry;
use crate::lowest::lowest;
use consistency::having::{ALL, among};
use consistency::lack::lack;
use ident::digit;
use state::sets::{EMPTY, add};
use state::{record, settings};
use tables::part;

// One addition to an entry that is short, of those that qualify.
fn once(entry: &Entry<'_>, tables: &mut [u8], out: &mut [u8], at: usize) -> usize
    requires steady { Steady entry.now.state.now tables.old }
    requires short { 1 ≤ short_by entry.now.state.now tables.old entry.now.node entry.now.level entry.now.digit }
    requires fits { Fits (added entry.now.state.now entry.now.node entry.now.level entry.now.digit (lowest_absent entry.now.state.now tables.old entry.now.node entry.now.level entry.now.digit) (sofar tables.old out.old at)) out.old at }
    ensures { Listed out.old at (added entry.now.state.now entry.now.node entry.now.level entry.now.digit (lowest_absent entry.now.state.now tables.old entry.now.node entry.now.level entry.now.digit) (sofar tables.old out.old at)) tables.new out.new result }
{
    let y = lowest(entry, tables);
    let (x, i, j) = (entry.node, entry.level, entry.digit);
    part::append(tables, settings::load(entry.state).depth, x, i, j, y);
    // `as`: the value is proved to fit, and `u8::try_from` would answer an error that cannot come.
    putting::four(out, at, x as u8, i as u8, j as u8, y as u8)
}

// As many as the entry is short.
fn fill(entry: &Entry<'_>, tables: &mut [u8], out: &mut [u8], at: usize) -> usize
    requires steady { Steady entry.now.state.now tables.old }
    requires fits { Fits (fill_entry entry.now.state.now entry.now.node entry.now.level entry.now.digit (sofar tables.old out.old at)) out.old at }
    ensures { Listed out.old at (fill_entry entry.now.state.now entry.now.node entry.now.level entry.now.digit (sofar tables.old out.old at)) tables.new out.new result }
{
    let depth = settings::load(entry.state).depth;
    let table = part::lent(tables, entry.node);
    let many = lack(table, depth, entry.level, entry.digit, entry.qualified);
    let mut end = at;
    for _ in 0..many {
        end = once(entry, tables, out, end);
    }
    end
}

// Every entry of level i: who qualifies for one has its digit and shares the digits below with x.
fn level(
    state: &[u64],
    tables: &mut [u8],
    having: &[u64; 128],
    sharing: u64,
    x: usize,
    i: usize,
    out: &mut [u8],
    at: usize,
) -> usize
    requires steady { Steady state.now tables.old }
    requires having { Having state.now (memory.node_count state.now) having.now }
    requires sharing { Sharing state.now x i sharing }
    requires node { IsNode state.now x }
    requires i_bound { i < memory.digits state.now }
    requires fits { Fits (fill_level state.now x i (sofar tables.old out.old at)) out.old at }
    ensures { Listed out.old at (fill_level state.now x i (sofar tables.old out.old at)) tables.new out.new result }
{
    let base = settings::load(state).base;
    let mut end = at;
    for j in 0..base {
        let entry = Entry {
            state,
            node: x,
            level: i,
            digit: j,
            qualified: among(having, sharing, i, j),
        };
        end = fill(&entry, tables, out, end);
    }
    end
}

// Every entry of x, by the walk of `measure::node`. Once nobody else shares the digits of x nothing is lacking above: x stands in its own entries, and for the others there is nobody.
pub fn node(
    state: &[u64],
    tables: &mut [u8],
    having: &[u64; 128],
    x: usize,
    out: &mut [u8],
    at: usize,
) -> usize
    requires steady { Steady state.now tables.old }
    requires having { Having state.now (memory.node_count state.now) having.now }
    requires node { IsNode state.now x }
    requires fits { Fits (fill_node state.now x (sofar tables.old out.old at)) out.old at }
    ensures { Listed out.old at (fill_node state.now x (sofar tables.old out.old at)) tables.new out.new result }
{
    let digits = settings::load(state).digits;
    let id = record::id(state, x) as u32;
    let alone = add(EMPTY, x);
    let mut sharing = ALL;
    let mut end = at;
    for i in 0..digits {
        end = level(state, tables, having, sharing, x, i, out, end);
        sharing = among(having, sharing, i, digit(id, i));
        if sharing == alone {
            return end;
        }
    }
    end
}
