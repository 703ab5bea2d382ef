// One node's table set to zero.
ghost use Rattle.std.specs.Prelude.{◌≡◌, replicate};
ghost use Rattle.model.specs.Memory.{with_table};
ghost use Rattle.tables.specs.Places.{Lent};

use crate::part::copy_out;

// Node x's table; every other byte stays.
pub fn clear_table(tables: &mut [u8], x: usize)
    requires { Lent tables.old x }
    ensures { tables.new ≡ with_table tables.old x (replicate 512 0) }
{
    copy_out(tables, x, &[0u8; 512]);
}
