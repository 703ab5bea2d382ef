// A line of the script as a command.
ghost use Rattle.std.specs.Prelude.{◌≡◌, false, unwrap_or};
ghost use Rattle.script.specs.Words.{ends};
ghost use Rattle.script.specs.declared.command.Command.TheVariants.{Unknown};
ghost use Rattle.script.specs.Commands.{ends_with, of_file, found, begin, withdraw, deliver, lookup, survey, table, save, file_or_shown, command_of};

use crate::failed::failed_of;
use crate::numbers::{decimal, hexadecimal};
use crate::words::{behind, ends, named};
use calls::Call;

#[derive(Clone, Copy, Debug, PartialEq, Eq)]
pub enum Command {
    // an empty line or a comment
    Nothing,
    // not understood
    Unknown,
    Call(Call),
    // a call that lists what it adds
    Fill,
    // the version; of this and the next two the file is the line's word 1
    Save(u64),
    Load,
    Trace,
    Panel,
    Table(u64),
}

// The command, where the line has k words at most.
#[tactic(auto, unfolding(crate::specs::Commands::ends_with))]
fn ends_with(line: &[u8], k: u64, command: Command) -> Option<Command>
    ensures { unwrap_or result Unknown ≡ ends_with k line.now command }
{
    ends(line, k).then_some(command)
}

#[tactic(auto, unfolding(crate::specs::Commands::found))]
fn found(line: &[u8]) -> Option<Command>
    ensures { unwrap_or result Unknown ≡ found line.now }
{
    let base = decimal(line, 1)?;
    let digits = decimal(line, 2)?;
    let depth = decimal(line, 3)?;
    let id = hexadecimal(line, 4)?;
    ends_with(line, 5, Command::Call(Call::Found(base, digits, depth, id)))
}

#[tactic(auto, unfolding(crate::specs::Commands::begin))]
fn begin(line: &[u8]) -> Option<Command>
    ensures { unwrap_or result Unknown ≡ begin line.now }
{
    let id = hexadecimal(line, 1)?;
    let gateway = decimal(line, 2)?;
    ends_with(line, 3, Command::Call(Call::Begin(id, gateway)))
}

#[tactic(auto, unfolding(crate::specs::Commands::of_node))]
fn withdraw(line: &[u8]) -> Option<Command>
    ensures { unwrap_or result Unknown ≡ withdraw line.now }
{
    let x = decimal(line, 1)?;
    ends_with(line, 2, Command::Call(Call::Withdraw(x)))
}

#[tactic(auto, unfolding(crate::specs::Commands::deliver))]
fn deliver(line: &[u8]) -> Option<Command>
    ensures { unwrap_or result Unknown ≡ deliver line.now }
{
    let sender = decimal(line, 1)?;
    let receiver = decimal(line, 2)?;
    ends_with(line, 3, Command::Call(Call::Deliver(sender, receiver)))
}

#[tactic(auto, unfolding(crate::specs::Commands::lookup))]
fn lookup(line: &[u8]) -> Option<Command>
    ensures { unwrap_or result Unknown ≡ lookup line.now }
{
    let from = decimal(line, 1)?;
    let to = decimal(line, 2)?;
    let failed = failed_of(behind(line, 3))?;
    Some(Command::Call(Call::Lookup(from, to, failed)))
}

#[tactic(auto, unfolding(crate::specs::Commands::survey))]
fn survey(line: &[u8]) -> Option<Command>
    ensures { unwrap_or result Unknown ≡ survey line.now }
{
    let failed = failed_of(behind(line, 1))?;
    Some(Command::Call(Call::Survey(failed)))
}

#[tactic(auto, unfolding(crate::specs::Commands::of_node))]
fn table(line: &[u8]) -> Option<Command>
    ensures { unwrap_or result Unknown ≡ table line.now }
{
    let x = decimal(line, 1)?;
    ends_with(line, 2, Command::Table(x))
}

// The command, where word 1 is there and the last: the file's name.
#[tactic(auto, unfolding(crate::specs::Commands::of_file))]
fn of_file(line: &[u8], command: Command) -> Option<Command>
    ensures { unwrap_or result Unknown ≡ of_file line.now command }
{
    if ends(line, 1) {
        return None;
    }
    ends_with(line, 2, command)
}

// The version stands behind the file's name; where it does not, it is 1.
#[tactic(auto, unfolding(crate::specs::Commands::save))]
fn save(line: &[u8]) -> Option<Command>
    ensures { unwrap_or result Unknown ≡ save line.now }
{
    if ends(line, 2) {
        return of_file(line, Command::Save(1));
    }
    let version = decimal(line, 2)?;
    ends_with(line, 3, Command::Save(version))
}

// The commands that are more than a call: filling, which lists, those that need a file, and those that show records.
#[tactic(auto, unfolding(crate::specs::Commands::file_or_shown))]
fn file_or_shown(line: &[u8]) -> Option<Command>
    ensures { unwrap_or result Unknown ≡ file_or_shown line.now }
{
    if named(line, b"fill") {
        return ends_with(line, 1, Command::Fill);
    }
    if named(line, b"save") {
        return save(line);
    }
    if named(line, b"load") {
        return of_file(line, Command::Load);
    }
    if named(line, b"trace") {
        return of_file(line, Command::Trace);
    }
    if named(line, b"panel") {
        return ends_with(line, 1, Command::Panel);
    }
    if named(line, b"table") {
        return table(line);
    }
    None
}

// By the line's first word.
#[tactic(auto, unfolding(crate::specs::Commands::command_of))]
fn called(line: &[u8]) -> Option<Command>
    ensures { ends 0 line.now ≡ false → unwrap_or result Unknown ≡ command_of line.now }
{
    if named(line, b"found") {
        return found(line);
    }
    if named(line, b"begin") {
        return begin(line);
    }
    if named(line, b"withdraw") {
        return withdraw(line);
    }
    if named(line, b"deliver") {
        return deliver(line);
    }
    if named(line, b"lookup") {
        return lookup(line);
    }
    if named(line, b"survey") {
        return survey(line);
    }
    if named(line, b"verdict") {
        return ends_with(line, 1, Command::Call(Call::Verdict));
    }
    if named(line, b"sound") {
        return ends_with(line, 1, Command::Call(Call::Sound));
    }
    file_or_shown(line)
}

#[tactic(auto, unfolding(crate::specs::Commands::command_of))]
pub fn parsed(line: &[u8]) -> Command
    ensures { result ≡ command_of line.now }
{
    if ends(line, 0) {
        return Command::Nothing;
    }
    called(line).unwrap_or(Command::Unknown)
}
