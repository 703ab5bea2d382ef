// One line of a script.
ghost use Rattle.std.specs.Prelude.{◌≡◌, ◌≤◌, length, OnOk};
ghost use Rattle.std.specs.Io.KnownBytes.{Appends};
ghost use Rattle.state.specs.Lent.{memory};
ghost use Rattle.script.specs.Commands.{command_of};
ghost use Rattle.replay.specs.Said.{command_said, most_said, command_after};
ghost use Rattle.replay.specs.Script.{Turn};

use crate::{files, fills, said};
use calls::Call;
use script::command::Command;
use script::{command, words};
use std::io;
use std::io::Write;
use std::rt::Files;

// A command that needs no file and no list: does it, puts what is said of it together in a room of so many bytes, and writes it at once. It is not inlined,
// so that a line clears its own room alone.
#[inline(never)]
fn plain<const ROOM: usize, W: Write>(
    output: &mut W,
    state: &mut [u64],
    tables: &mut [u8],
    command: Command,
    number: u64,
) -> io::Result<()>
    requires room { most_said command ≤ ROOM }
    requires room_bound { ROOM ≤ 16384 }
    ensures tables_after { memory state.new tables.new ≡ command_after (memory state.old tables.old) command }
    ensures written { OnOk result (Appends (W.contents output.old) (W.contents output.new) (command_said (memory state.old tables.old) number command)) }
{
    let mut room = [0u8; ROOM];
    let end = said::command(state, tables, command, number, &mut room);
    output.write_all(&room[..end])
}

// Plays the line, which has this number in its script, and writes what is said of it.
pub fn line<W: Write>(
    rt: &impl Files,
    output: &mut W,
    state: &mut [u64],
    tables: &mut [u8],
    text: &[u8],
    number: u64,
) -> io::Result<()>
    ensures { Turn (command_of text.now) (memory state.old tables.old) (memory state.new tables.new) }
{
    let command = command::parsed(text);
    match command {
        Command::Fill => fills::fill(output, state, tables),
        Command::Save(version) => {
            let path = words::word(text, 1);
            files::save(rt, output, state, tables, path, version)
        }
        Command::Load => {
            let path = words::word(text, 1);
            let unread = b"load: the file cannot be read\n";
            files::play(rt, output, state, tables, path, Call::Read, unread)
        }
        Command::Trace => {
            let path = words::word(text, 1);
            let unread = b"trace: the file cannot be read\n";
            files::play(rt, output, state, tables, path, Call::Trace, unread)
        }
        Command::Nothing | Command::Unknown | Command::Call(_) => {
            plain::<943, _>(output, state, tables, command, number)
        }
        Command::Panel | Command::Table(_) => {
            plain::<16384, _>(output, state, tables, command, number)
        }
    }
}
