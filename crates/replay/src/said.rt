// What is said of a line, put into lent memory, and what the line does to the network.
ghost use Rattle.std.specs.Prelude.{◌≡◌, [], ◌≤◌, length};
ghost use Rattle.model.specs.Memory.{digits};
ghost use Rattle.model.specs.Run.{step, after};
ghost use Rattle.state.specs.Lent.{memory};
ghost use Rattle.putting.specs.Put.{Put};
ghost use Rattle.replay_calls.specs.Called.{called, out_after};
ghost use Rattle.replay_calls.specs.Answered.{padded, listed};
ghost use Rattle.replay_words.specs.Said.{said};
ghost use Rattle.replay.specs.Said.{panel_said, table_said, unknown_said, command_said, most_said, command_after};

use calls::Call;
use putting::piece;
use replay_calls::one;
use replay_panel::record::Record;
use replay_words::said::Said;
use script::command::Command;
use state::sets;

// A played call: what is said of it, and how many bytes its words have.
#[derive(Clone, Copy)]
pub struct Answered {
    pub end: usize,
    pub said: Said,
}

// Plays the call, of this image or trace and to this memory for output, and puts its words at the start of words.
pub fn played(
    state: &mut [u64],
    tables: &mut [u8],
    file: &[u8],
    out: &mut [u8],
    call: Call,
    words: &mut [u8],
) -> Answered
    requires { 943 ≤ length words.old }
    ensures tables_after { memory state.new tables.new ≡ after (memory state.old tables.old) (called file.now out.old call) }
    ensures out_after { out.new ≡ out_after (memory state.old tables.old) out.old call }
    ensures answer_value { listed result.said ≡ padded (step (memory state.old tables.old) (called file.now out.old call)).answer }
    ensures put { Put words.old 0 (said (digits state.old) file.now call (padded (step (memory state.old tables.old) (called file.now out.old call)).answer)) words.new result.end }
    ensures end_bound { result.end ≤ 943 }
{
    let said = one::play(state, tables, file, out, call);
    let end = replay_words::said::put(words, said);
    Answered { end, said }
}

// A call that needs no file.
fn call(state: &mut [u64], tables: &mut [u8], call: Call, words: &mut [u8]) -> usize
    requires { 943 ≤ length words.old }
    ensures tables_after { memory state.new tables.new ≡ after (memory state.old tables.old) (called [] [] call) }
    ensures put { Put words.old 0 (said (digits state.old) [] call (padded (step (memory state.old tables.old) (called [] [] call)).answer)) words.new result }
    ensures upper_bound { result ≤ 943 }
{
    let none = [0u8; 0];
    let mut out = [0u8; 0];
    played(state, tables, &none, &mut out, call, words).end
}

// A line for each node, or why there is none.
fn panel(state: &[u64], tables: &[u8], words: &mut [u8]) -> usize
    requires { 7168 ≤ length words.old }
    ensures put { Put words.old 0 (panel_said (memory state.now tables.now)) words.new result }
    ensures upper_bound { result ≤ 7168 }
{
    match refusals::sentences::judged(state, tables) {
        Ok(network) => replay_panel::put(&network, words),
        Err(refusal) => replay_refusals::put(words, u64::from(refusal), 0, 0),
    }
}

// A node's table, or why it is not shown.
fn table(state: &[u64], tables: &[u8], number: u64, words: &mut [u8]) -> usize
    requires { 16384 ≤ length words.old }
    ensures put { Put words.old 0 (table_said (memory state.now tables.now) number) words.new result }
    ensures upper_bound { result ≤ 16384 }
{
    match refusals::lookup::judge(state, tables, number, number, sets::EMPTY) {
        Ok((network, x, _)) => replay_table::put(&Record { network, x }, words),
        Err(refusal) => replay_refusals::put(words, u64::from(refusal), 0, 0),
    }
}

// A line that is no command, by its number.
fn unknown(number: u64, words: &mut [u8]) -> usize
    requires { 42 ≤ length words.old }
    ensures put { Put words.old 0 (unknown_said number) words.new result }
    ensures upper_bound { result ≤ 42 }
{
    let end = text::labelled(words, 0, b"line ", number);
    piece(words, end, b": not understood\n")
}

// The command of a line that has this number: does it, where it needs no file and no list, and puts what is said of it at the start of words.
pub fn command(
    state: &mut [u64],
    tables: &mut [u8],
    command: Command,
    number: u64,
    words: &mut [u8],
) -> usize
    requires { most_said command ≤ length words.old }
    ensures tables_after { memory state.new tables.new ≡ command_after (memory state.old tables.old) command }
    ensures put { Put words.old 0 (command_said (memory state.old tables.old) number command) words.new result }
    ensures upper_bound { result ≤ most_said command }
{
    match command {
        Command::Nothing => return 0,
        Command::Unknown => return unknown(number, words),
        Command::Call(c) => return call(state, tables, c, words),
        Command::Fill => return 0,
        Command::Save(_) => return 0,
        Command::Load => return 0,
        Command::Trace => return 0,
        Command::Panel => return panel(state, tables, words),
        Command::Table(x) => return table(state, tables, x, words),
    }
}
