// Plays a script of calls from standard input, one a line, and prints each answer. docs/REPLAY.md has the language.
#![tactic(auto)]

ghost use Rattle.std.specs.Prelude.{◌≡◌, length, position};
ghost use Rattle.std.specs.List.{before_first, after_first};
ghost use Rattle.state.specs.Lent.{memory};
ghost use Rattle.replay.specs.Script.{ends_line, lines_of, Follows};

mod files;
mod fills;
mod said;
mod turn;

use input::read_full;
use state::lent::{STATE_LENGTH, TABLES_LENGTH};
use std::io;
use std::io::Write;
use std::rt::Files;

// The place of the first line end.
#[tactic(auto, unfolding(crate::specs::Script::ends_line))]
fn line_end(text: &[u8]) -> Option<usize>
    ensures { result ≡ position ends_line text.now }
{
    text.iter().position(|b| *b == b'\n')
}

// The first line of a text, and what stands behind its end.
fn first_line(text: &[u8]) -> (&[u8], &[u8])
    ensures line { result.0.now ≡ before_first ends_line text.now }
    ensures behind { result.1.now ≡ after_first ends_line text.now }
{
    match line_end(text) {
        Some(end) => (&text[..end], &text[end + 1..]),
        None => (text, &text[text.len()..]),
    }
}

// Plays all lines, also where an answer cannot be printed: the result is the first failure of printing. What is said of a line is written before the
// next is played.
fn lines<W: Write>(
    rt: &impl Files,
    output: &mut W,
    state: &mut [u64],
    tables: &mut [u8],
    script: &[u8],
) -> io::Result<()>
    ensures { Follows (lines_of script.now) (memory state.old tables.old) (memory state.new tables.new) }
{
    let mut printed = Ok(());
    let mut number = 0;
    let mut rest = script;
    while !rest.is_empty() {
        let (line, behind) = first_line(rest);
        number += 1;
        let is_printed = turn::line(rt, output, state, tables, line, number);
        printed = printed.and(is_printed).and(output.flush());
        rest = behind;
    }
    printed
}

// Memory for a script or for the lines of a list: the check computes a value of a fixed size that stands in a larger body.
fn room<const N: usize>() -> [u8; N]
    ensures { N ≡ length result }
{
    [0; N]
}

fn main(rt: HostRuntime) -> io::Result<()> {
    let mut script = room::<1048576>(); // one that fills it is not played
    let n = read_full(&mut rt.stdin(), &mut script);
    if n == 1048576 {
        return rt.write_all(b"the script is longer than 1048575 bytes\n");
    }
    let mut state = [0u64; STATE_LENGTH];
    let mut tables = [0u8; TABLES_LENGTH];
    lines(&rt, &mut rt.stdout(), &mut state, &mut tables, &script[..n])
}
