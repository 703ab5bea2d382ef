// A node's table within the lent table memory: for node x the 512 bytes from 512 (x − 1) on.
ghost use Rattle.std.specs.Prelude.{◌≡◌, length};
ghost use Rattle.model.specs.Memory.{table_of, with_table};
ghost use Rattle.model.specs.Tables as book;
ghost use Rattle.tables.specs.Places.{Lent, Appends};

use crate::entry::size;

// Node x's table, lent to be read.
pub fn lent(tables: &[u8], x: usize) -> &[u8]
    requires { Lent tables.now x }
    ensures { (result.now ≡ table_of tables.now x) × (length result.now ≡ 512) }
{
    let start = 512 * (x - 1);
    let end = start + 512;
    &tables[start..end]
}

// Node x's table, as an array of one's own.
pub fn copy_in(tables: &[u8], x: usize) -> [u8; 512]
    requires { Lent tables.now x }
    ensures { result ≡ table_of tables.now x }
{
    let mut table = [0u8; 512];
    table.copy_from_slice(lent(tables, x));
    table
}

// Such an array put back as node x's table; every other byte stays.
pub fn copy_out(tables: &mut [u8], x: usize, table: &[u8; 512])
    requires { Lent tables.old x }
    ensures { tables.new ≡ with_table tables.old x table.now }
{
    let start = 512 * (x - 1);
    let end = start + 512;
    tables[start..end].copy_from_slice(table);
}

// u behind the nodes of entry (i, j) of node x: one byte of the table memory.
pub fn append(tables: &mut [u8], depth: usize, x: usize, i: usize, j: usize, u: usize)
    requires { Appends tables.old depth x i j u }
    ensures { tables.new ≡ with_table tables.old x (book.append depth (table_of tables.old x) i j u) }
{
    let k = size(lent(tables, x), depth, i, j);
    let start = 512 * (x - 1);
    tables[start + (64 * i + 4 * j + k)] = u as u8;
}
