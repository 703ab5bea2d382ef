// The commands with a file.
ghost use Rattle.state.specs.Lent.{memory};
ghost use Rattle.replay.specs.Script.{Saved, FilePlayed};

use crate::said;
use calls::Call;
use input::read_full;
use replay_words::said::Said;
use script::words::part;
use std::io::Write;
use std::rt::Files;
use std::{fs, io, str};

// Writes the bytes to a file of this name, which is made or emptied first; none where that did not go well.
fn keep(rt: &impl Files, path: &[u8], image: &[u8]) -> Option<()> {
    let name = str::from_utf8(path).ok()?;
    fs::write(rt, name, image).ok()
}

// The file of this name, opened to be read.
fn opened<R: Files>(rt: &R, path: &[u8]) -> Option<R::File> {
    let name = str::from_utf8(path).ok()?;
    fs::open(rt, name).ok()
}

pub fn save<W: Write>(
    rt: &impl Files,
    output: &mut W,
    state: &mut [u64],
    tables: &mut [u8],
    path: &[u8],
    version: u64,
) -> io::Result<()>
    ensures { Saved version (memory state.old tables.old) (memory state.new tables.new) }
{
    let none = [0u8; 0];
    let mut image = [0u8; 65536];
    let mut words = [0u8; 943];
    let call = Call::Write(version);
    let played = said::played(state, tables, &none, &mut image, call, &mut words);
    if let Said::Saved(bytes) = played.said {
        if keep(rt, path, part(&image, 0, bytes as usize)).is_none() {
            return output.write_all(b"save: the file cannot be written\n");
        }
    }
    output.write_all(&words[..played.end])
}

// Plays the call of what the file holds, of at most 65,536 bytes; where it cannot be opened, writes `unread`.
pub fn play<W: Write>(
    rt: &impl Files,
    output: &mut W,
    state: &mut [u64],
    tables: &mut [u8],
    path: &[u8],
    call: Call,
    unread: &[u8],
) -> io::Result<()>
    ensures { FilePlayed call (memory state.old tables.old) (memory state.new tables.new) }
{
    let Some(mut opened) = opened(rt, path) else {
        return output.write_all(unread);
    };
    let mut none = [0u8; 0];
    let mut file = [0u8; 65536];
    let n = read_full(&mut opened, &mut file);
    let mut words = [0u8; 943];
    let played = said::played(state, tables, &file[..n], &mut none, call, &mut words);
    output.write_all(&words[..played.end])
}
