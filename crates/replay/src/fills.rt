// Filling, with what it adds.
ghost use Rattle.std.specs.Prelude.{◌*◌, ◌≤◌, length, OnOk};
ghost use Rattle.std.specs.Io.KnownBytes.{Appends};
ghost use Rattle.model.specs.Loops.{join_below};
ghost use Rattle.state.specs.Lent.{memory};
ghost use Rattle.replay_entries.specs.EntryText.{addition_at};
ghost use Rattle.replay.specs.Script.{Filled};

use crate::{room, said};
use additions::{LONGEST, blank};
use calls::Call;
use replay_words::said::Said;
use std::io;
use std::io::Write;

// Writes a line for each of the first n additions of the list, put together in this room. A line has at most 90 bytes.
fn print<W: Write>(
    output: &mut W,
    room: &mut [u8],
    list: &[u8; LONGEST],
    n: usize,
) -> io::Result<()>
    requires n_in_bounds { 4 * n ≤ 21504 }
    requires n_in_bounds_2 { 90 * n ≤ length room.old }
    ensures { OnOk result (Appends (W.contents output.old) (W.contents output.new) (join_below n (addition_at list.now))) }
{
    let end = replay_entries::additions(room, list, n);
    output.write_all(&room[..end])
}

// The same in a room of its own: the lines of the longest list have 483,840 bytes, but most lists are short.
fn print_all<W: Write>(output: &mut W, list: &[u8; LONGEST], n: usize) -> io::Result<()>
    requires { 4 * n ≤ 21504 }
    ensures { OnOk result (Appends (W.contents output.old) (W.contents output.new) (join_below n (addition_at list.now))) }
{
    if n <= 64 {
        let mut lines = [0; 5760];
        return print(output, &mut lines, list, n);
    }
    let mut lines = room::<483840>();
    print(output, &mut lines, list, n)
}

// Writes how many additions there are, and a line for each.
pub fn fill<W: Write>(output: &mut W, state: &mut [u64], tables: &mut [u8]) -> io::Result<()>
    ensures { Filled (memory state.old tables.old) (memory state.new tables.new) }
{
    let none = [0u8; 0];
    let mut list = blank();
    let mut words = [0u8; 943];
    let played = said::played(state, tables, &none, &mut list, Call::Fill, &mut words);
    let printed = output.write_all(&words[..played.end]);
    let Said::Filled(n) = played.said else {
        return printed;
    };
    printed.and(print_all(output, &list, n as usize))
}
