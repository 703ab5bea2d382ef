// The table of a new node: it is first in each of its own entries, those of its own digits, and nothing else stands there.
ghost use Rattle.std.specs.Prelude.{◌≡◌, ◌≤◌, ◌<◌};
ghost use Rattle.model.specs.Memory.{with_table};
ghost use Rattle.model.specs.Tables.{own_table};
ghost use Rattle.tables.specs.Places.{Lent};

use crate::part::copy_out;
use ident::digit;

// The table of node x with this id.
pub fn own_table(digits: usize, id: u32, x: usize) -> [u8; 512]
    requires digits_bound { digits ≤ 8 }
    requires x_bound { x < 256 }
    ensures { result ≡ own_table digits id x }
{
    let mut table = [0u8; 512];
    for i in 0..digits {
        table[64 * i + 4 * digit(id, i)] = x as u8;
    }
    table
}

// The same in the lent table memory, whatever stood there.
pub fn write_own(tables: &mut [u8], digits: usize, id: u32, x: usize)
    requires lent { Lent tables.old x }
    requires digits_bound { digits ≤ 8 }
    ensures { tables.new ≡ with_table tables.old x (own_table digits id x) }
{
    copy_out(tables, x, &own_table(digits, id, x));
}
