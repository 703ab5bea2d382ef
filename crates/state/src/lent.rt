// The lent memory: its fixed lengths, which every call asks for first.
ghost use Rattle.std.specs.Prelude.{◌≡◌};
ghost use Rattle.model.specs.Refusals.{memory_short};
ghost use Rattle.state.specs.Lent.{memory};

// The fixed length of the state, in words.
pub const STATE_LENGTH: usize = 520;

// The fixed length of the table memory, in bytes.
pub const TABLES_LENGTH: usize = 32768;

// 1: one of the two is shorter than its fixed length.
pub fn short(state: &[u64], tables: &[u8]) -> bool
    ensures { result ≡ memory_short (memory state.now tables.now) }
{
    tables.len() < TABLES_LENGTH || state.len() < STATE_LENGTH
}
