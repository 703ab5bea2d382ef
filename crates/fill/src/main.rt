// Reads an image from standard input, fills its short entries, and prints each addition, document 02's Ticket 10; with a file name as its argument it writes
// the filled image there, of the version that it was read in.
#![tactic(auto)]

ghost use Rattle.std.specs.Prelude.{◌≤◌, length};

mod added;
mod judge;
mod report;

use std::env::FillError;
use std::rt::{Env, Files};
use std::{fs, io, str};

// Whether there is an argument of this number; the program's name is number 0.
fn is_given(rt: &impl Env, number: usize) -> bool {
    !matches!(rt.arg(number, &mut [0u8; 0]), Err(FillError::NotPresent))
}

// Writes the bytes to the file that the argument names, which is made or emptied first, and answers whether that went well. A file's name is UTF-8 text of
// at most 4,095 bytes.
fn keep(rt: &(impl Env + Files), image: &[u8]) -> bool {
    let mut path = [0u8; 4096];
    let Ok(n) = rt.arg(1, &mut path) else {
        return false;
    };
    match str::from_utf8(&path[..n]) {
        Ok(name) => fs::write(rt, name, image).is_ok(),
        Err(_) => false,
    }
}

// Puts the image of this version into the memory, and answers its length in bytes, 0 where that is refused.
fn put_image(state: &[u64], tables: &[u8], version: u64, image: &mut [u8]) -> usize
    ensures { result ≤ length image.new }
{
    match engine::writing::write(state, tables, version, image) {
        Ok(length) => length,
        Err(_) => 0,
    }
}

// Writes the image of this version to the file that the argument names.
fn save(
    rt: &(impl Env + Files + Print),
    state: &[u64],
    tables: &[u8],
    version: u64,
) -> io::Result<()> {
    let mut image = [0u8; 25226];
    let length = put_image(state, tables, version, &mut image);
    if !keep(rt, &image[..length]) {
        rt.write_all(b"the file cannot be written\n")?;
    }
    Ok(())
}

fn main(rt: HostRuntime) -> io::Result<()> {
    if is_given(&rt, 2) {
        return rt.write_all(b"one file at most\n");
    }
    let named = is_given(&rt, 1);
    judge::judge(
        &mut rt.stdin(),
        &mut rt.stdout(),
        |state, tables, version| {
            if named {
                save(&rt, state, tables, version)
            } else {
                Ok(())
            }
        },
    )
}
