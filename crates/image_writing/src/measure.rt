// How many bytes the records take, four for each filled slot, and the sections behind them.
ghost use Rattle.std.specs.Prelude.{◌≡◌, cond, not, ◌≤◌, ◌<◌, eqb, length};
ghost use Rattle.model.specs.Memory.{in_system};
ghost use Rattle.model.specs.Nodes.{count_nodes};
ghost use Rattle.model.specs.Image.{all_records, under_way, rest_bytes};
ghost use Rattle.model.proofs.Status.{IsNode};
ghost use Rattle.image_writing_parts.specs.Records.{entry_of, records_of_level, table_records};

use image_writing_parts::table::NodeTable;
use network::network::Network;
use state::record;
use state::status::Status;
use tables::entry;

fn slot(u: u8) -> usize
    ensures { (result ≡ cond (eqb u 0) 0 4) × (result ≤ 4) }
{
    if u == 0 { 0 } else { 4 }
}

// Most entries are empty.
fn in_entry(table: &NodeTable<'_>, i: usize, j: usize) -> usize
    requires level { i < 8 }
    requires digit { j < 16 }
    ensures { (result ≡ length (entry_of table.now.depth table.now.slots.now table.now.node i j)) × (result ≤ 16) }
{
    if entry::empty(table.slots, i, j) {
        return 0;
    }
    let mut total = 0;
    for k in 0..table.depth {
        total += slot(table.slots[64 * i + 4 * j + k]);
    }
    total
}

fn in_level(table: &NodeTable<'_>, i: usize) -> usize
    requires { i < 8 }
    ensures { (result ≡ length (records_of_level table.now.base table.now.depth table.now.slots.now table.now.node i)) × (result ≤ 256) }
{
    let mut total = 0;
    for j in 0..table.base {
        total += in_entry(table, i, j);
    }
    total
}

fn in_table(table: &NodeTable<'_>) -> usize
    ensures { (result ≡ length (table_records table.now.digits table.now.base table.now.depth table.now.slots.now table.now.node)) × (result ≤ 2048) }
{
    let mut total = 0;
    for i in 0..table.digits {
        total += in_level(table, i);
    }
    total
}

pub fn records(network: &Network<'_>) -> usize
    ensures { (result ≡ length (all_records network.now.state.now network.now.tables.now)) × (result ≤ 131072) }
{
    let mut total = 0;
    for x in 1..network.nodes() + 1 {
        total += in_table(&NodeTable::of(network, x));
    }
    total
}

// A node that is not in system.
fn is_under_way(network: &Network<'_>, x: usize) -> bool
    requires { IsNode network.now.state.now x }
    ensures { result ≡ under_way network.now.state.now x }
{
    record::status(network.state, x) != Status::IN_SYSTEM
}

// How many joins are under way.
pub fn joins(network: &Network<'_>) -> usize
    ensures { (result ≡ count_nodes network.now.state.now (under_way network.now.state.now)) × (result ≤ 64) }
{
    let mut count = 0;
    for x in 1..network.nodes() + 1 {
        count += usize::from(is_under_way(network, x));
    }
    count
}

// The joins under way and the counts, where the version has them: a count for each section, 20 bytes a join, and 2 a node.
pub fn rest(network: &Network<'_>, version: u64) -> usize
    ensures { (result ≡ length (rest_bytes version network.now.state.now)) × (result ≤ 1410) }
{
    if !crate::has_joins(version) {
        return 0;
    }
    2 + 20 * joins(network) + 2 * network.nodes()
}
