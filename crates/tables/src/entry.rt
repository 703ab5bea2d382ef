// An entry (i, j), level i and digit j, of one node's table: slot k, from 0 to 3, is byte 64i + 4j + k, and 0 where it is empty. Only the slots
// below the depth are read, but where it says otherwise.
ghost use Rattle.std.specs.Prelude.{◌≡◌, ◌≢◌, ◌≤◌, ◌<◌, IfSome};
ghost use Rattle.model.specs.Loops.{all_below};
ghost use Rattle.model.specs.Lookup as book;
ghost use Rattle.model.specs.Tables as tables;
ghost use Rattle.tables.specs.Places.{Entry, Numbers};
ghost use Rattle.tables.specs.NextHop.{number_or_zero, book_next_hop};

use state::sets::{has, is_empty};

// How many nodes the entry holds: the slots before its first empty one.
pub fn size(table: &[u8], depth: usize, i: usize, j: usize) -> usize
    requires { Entry table.now depth i j }
    ensures { (result ≡ tables.entry_size depth table.now i j) × (result ≤ depth) }
{
    let entry = 64 * i + 4 * j;
    (0..depth).find(|k| table[entry + *k] == 0).unwrap_or(depth)
}

// Whether node u stands in the entry.
pub fn holds(table: &[u8], depth: usize, i: usize, j: usize, u: usize) -> bool
    requires { Entry table.now depth i j }
    ensures { result ≡ tables.holds depth table.now i j u }
{
    let entry = 64 * i + 4 * j;
    (0..depth).any(|k| table[entry + k] as usize == u)
}

// The first node of the entry, the one in slot 0; none where the entry is empty.
pub fn first(table: &[u8], i: usize, j: usize) -> Option<usize>
    requires { Entry table.now 1 i j }
    ensures first { number_or_zero result ≡ tables.first_of table.now i j }
    ensures some { IfSome result (λ u. u ≢ 0) }
{
    let node = table[64 * i + 4 * j] as usize;
    if node == 0 { None } else { Some(node) }
}

// The frontmost node of the entry that has not failed, none where none is left, and how many failed ones stand in front of it.
#[derive(Clone, Copy, Debug, PartialEq, Eq)]
pub struct NextHop {
    pub node: Option<usize>,
    pub passed_over: usize,
}

// With none failed it is the first: a case of its own, which a caller's loop asks once for all its turns.
pub fn frontmost(table: &[u8], depth: usize, i: usize, j: usize, failed: u64) -> NextHop
    requires entry { Entry table.now depth i j }
    requires numbers { Numbers table.now depth i j }
    requires le_depth { 1 ≤ depth }
    ensures hop { book_next_hop result ≡ book.frontmost failed (tables.entry depth table.now i j) }
    ensures some { IfSome result.node (λ u. u ≢ 0) }
{
    if is_empty(failed) {
        return NextHop {
            node: first(table, i, j),
            passed_over: 0,
        };
    }
    let entry = 64 * i + 4 * j;
    for k in 0..depth {
        let node = table[entry + k] as usize;
        if node == 0 {
            return NextHop {
                node: None,
                passed_over: k,
            };
        }
        if !has(failed, node) {
            return NextHop {
                node: Some(node),
                passed_over: k,
            };
        }
    }
    NextHop {
        node: None,
        passed_over: depth,
    }
}

// All four slots are empty, those from the depth on too: asked at once, since most entries of a table are.
pub fn empty(table: &[u8], i: usize, j: usize) -> bool
    requires { Entry table.now 4 i j }
    ensures { result ≡ all_below 4 (tables.slot_is table.now i j 0) }
{
    let a = 64 * i + 4 * j;
    table[a] | table[a + 1] | table[a + 2] | table[a + 3] == 0
}

// u behind the nodes of the entry, which has room.
pub fn append(table: &mut [u8; 512], depth: usize, i: usize, j: usize, u: usize)
    requires entry { Entry table.old depth i j }
    requires j_bound { tables.entry_size depth table.old i j < depth }
    requires u_bound { u < 256 }
    ensures { table.new ≡ tables.append depth table.old i j u }
{
    let k = size(table, depth, i, j);
    table[64 * i + 4 * j + k] = u as u8;
}
