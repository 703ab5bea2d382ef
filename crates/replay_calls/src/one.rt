// One call, played by the public call of its kind.
ghost use Rattle.std.specs.Prelude.{◌≡◌, ℕ, List};
ghost use Rattle.model.specs.Memory.{digits};
ghost use Rattle.model.specs.Calls.{found_call, read_call, begin_call, withdraw_call, deliver_call, lookup_call, survey_call, verdict_call, fill_call, write_call, trace_call, sound_call};
ghost use Rattle.model.specs.Run.{step};
ghost use Rattle.model.specs.Traces.{path_count};
ghost use Rattle.state.specs.Lent.{memory};
ghost use Rattle.calls.specs.declared.Call.TheVariants as kind;
ghost use Rattle.replay_calls.specs.Called.{called, out_after};
ghost use Rattle.replay_calls.specs.Answered.{playing, shown, said_of, Says};

use calls::Call;
use engine::{beginning, delivering, founding, reading, tracing, withdrawing, writing};
use replay_refusals::Refused;
use replay_survey::Survey;
use replay_words::said::Said;
use state::settings;

fn found(
    state: &mut [u64],
    tables: &mut [u8],
    base: u64,
    digits: u64,
    depth: u64,
    id: u32,
) -> Result<Said, Refused>
    ensures result_after { shown (memory state.new tables.new) (said_of result) ≡ playing (found_call (memory state.old tables.old) base digits depth id) }
    ensures says { (d : ℕ) (file : List ℕ) → Says d file (kind.Found base digits depth id) (said_of result) }
{
    founding::found(state, tables, base, digits, depth, id)?;
    Ok(Said::Founded)
}

fn begin(state: &mut [u64], tables: &mut [u8], id: u32, gateway: u64) -> Result<Said, Refused>
    ensures result_after { shown (memory state.new tables.new) (said_of result) ≡ playing (begin_call (memory state.old tables.old) id gateway) }
    ensures says { (d : ℕ) (file : List ℕ) → Says d file (kind.Begin id gateway) (said_of result) }
{
    let node = beginning::begin(state, tables, id, gateway)?;
    Ok(Said::Begun(node as u64))
}

fn withdraw(state: &mut [u64], tables: &mut [u8], node: u64) -> Result<Said, Refused>
    ensures result_after { shown (memory state.new tables.new) (said_of result) ≡ playing (withdraw_call (memory state.old tables.old) node) }
    ensures says { (d : ℕ) (file : List ℕ) → Says d file (kind.Withdraw node) (said_of result) }
{
    withdrawing::withdraw(state, tables, node)?;
    Ok(Said::Withdrawn(node))
}

fn deliver(
    state: &mut [u64],
    tables: &mut [u8],
    sender: u64,
    receiver: u64,
) -> Result<Said, Refused>
    ensures result_after { shown (memory state.new tables.new) (said_of result) ≡ playing (deliver_call (memory state.old tables.old) sender receiver) }
    ensures says { (d : ℕ) (file : List ℕ) → Says d file (kind.Deliver sender receiver) (said_of result) }
{
    let delivery = delivering::deliver(state, tables, sender, receiver)?;
    Ok(Said::Delivered(delivery))
}

fn lookup(state: &[u64], tables: &[u8], from: u64, to: u64, failed: u64) -> Result<Said, Refused>
    ensures result_after { shown (memory state.now tables.now) (said_of result) ≡ playing (lookup_call (memory state.now tables.now) from to failed) }
    ensures says { (d : ℕ) (file : List ℕ) → Says d file (kind.Lookup from to failed) (said_of result) }
{
    let lookup = engine::lookup::lookup(state, tables, from, to, failed)?;
    Ok(Said::LookedUp(lookup))
}

fn survey(state: &[u64], tables: &[u8], failed: u64) -> Result<Said, Refused>
    ensures result_after { shown (memory state.now tables.now) (said_of result) ≡ playing (survey_call (memory state.now tables.now) failed) }
    ensures says { (file : List ℕ) → Says (digits state.now) file (kind.Survey failed) (said_of result) }
{
    let counts = engine::survey::survey(state, tables, failed)?;
    let digits = settings::digits(state);
    Ok(Said::Surveyed(Survey { digits, counts }))
}

fn verdict(state: &[u64], tables: &[u8]) -> Result<Said, Refused>
    ensures result_after { shown (memory state.now tables.now) (said_of result) ≡ playing (verdict_call (memory state.now tables.now)) }
    ensures says { (d : ℕ) (file : List ℕ) → Says d file kind.Verdict (said_of result) }
{
    let short = engine::verdict::verdict(state, tables)?;
    Ok(Said::Judged(short))
}

fn read(state: &mut [u64], tables: &mut [u8], image: &[u8]) -> Result<Said, Refused>
    ensures result_after { shown (memory state.new tables.new) (said_of result) ≡ playing (read_call (memory state.old tables.old) image.now) }
    ensures says { (d : ℕ) → Says d image.now kind.Read (said_of result) }
{
    reading::read(state, tables, image)?;
    Ok(Said::Loaded(image.len() as u64))
}

fn fill(state: &[u64], tables: &mut [u8], out: &mut [u8]) -> Result<Said, Refused>
    ensures result_after { shown (memory state.now tables.new) (said_of result) ≡ playing (fill_call (memory state.now tables.old) out.old) }
    ensures out_after { out.new ≡ (fill_call (memory state.now tables.old) out.old).out }
    ensures says { (d : ℕ) (file : List ℕ) → Says d file kind.Fill (said_of result) }
{
    let additions = engine::fill::fill(state, tables, out)?;
    Ok(Said::Filled(additions as u64))
}

fn write(state: &[u64], tables: &[u8], version: u64, out: &mut [u8]) -> Result<Said, Refused>
    ensures result_value { shown (memory state.now tables.now) (said_of result) ≡ playing (write_call (memory state.now tables.now) version out.old) }
    ensures out_after { out.new ≡ (write_call (memory state.now tables.now) version out.old).out }
    ensures says { (d : ℕ) (file : List ℕ) → Says d file (kind.Write version) (said_of result) }
{
    let bytes = writing::write(state, tables, version, out)?;
    Ok(Said::Saved(bytes as u64))
}

// A trace's count of paths, 0 of one that is empty.
fn path_count(trace: &[u8]) -> u64
    ensures { result ≡ path_count trace.now }
{
    trace.first().copied().unwrap_or(0) as u64
}

fn trace(state: &[u64], tables: &[u8], trace: &[u8]) -> Result<Said, Refused>
    ensures result_after { shown (memory state.now tables.now) (said_of result) ≡ playing (trace_call (memory state.now tables.now) trace.now) }
    ensures says { (d : ℕ) → Says d trace.now kind.Trace (said_of result) }
{
    tracing::trace(state, tables, trace)?;
    Ok(Said::Traced(path_count(trace)))
}

fn sound(state: &[u64], tables: &[u8]) -> Result<Said, Refused>
    ensures result_after { shown (memory state.now tables.now) (said_of result) ≡ playing (sound_call (memory state.now tables.now)) }
    ensures says { (d : ℕ) (file : List ℕ) → Says d file kind.Sound (said_of result) }
{
    engine::sound::sound(state, tables)?;
    Ok(Said::Sound)
}

// What is said of the call where it is taken, or its refusal.
fn taken(
    state: &mut [u64],
    tables: &mut [u8],
    file: &[u8],
    out: &mut [u8],
    call: Call,
) -> Result<Said, Refused>
    ensures result_after { shown (memory state.new tables.new) (said_of result) ≡ playing (step (memory state.old tables.old) (called file.now out.old call)) }
    ensures out_after { out.new ≡ out_after (memory state.old tables.old) out.old call }
    ensures says { Says (digits state.old) file.now call (said_of result) }
{
    match call {
        Call::Found(base, digits, depth, id) => {
            return found(state, tables, base, digits, depth, id);
        }
        Call::Read => return read(state, tables, file),
        Call::Begin(id, gateway) => return begin(state, tables, id, gateway),
        Call::Withdraw(node) => return withdraw(state, tables, node),
        Call::Deliver(sender, receiver) => return deliver(state, tables, sender, receiver),
        Call::Lookup(from, to, failed) => return lookup(state, tables, from, to, failed),
        Call::Survey(failed) => return survey(state, tables, failed),
        Call::Verdict => return verdict(state, tables),
        Call::Fill => return fill(state, tables, out),
        Call::Write(version) => return write(state, tables, version, out),
        Call::Trace => return trace(state, tables, file),
        Call::Sound => return sound(state, tables),
    }
}

// Plays the call on the lent memory, and answers what is said of it: reading and tracing are of `file`, and filling and writing to `out`.
pub fn play(state: &mut [u64], tables: &mut [u8], file: &[u8], out: &mut [u8], call: Call) -> Said
    ensures result_after { shown (memory state.new tables.new) result ≡ playing (step (memory state.old tables.old) (called file.now out.old call)) }
    ensures out_after { out.new ≡ out_after (memory state.old tables.old) out.old call }
    ensures says { Says (digits state.old) file.now call result }
{
    match taken(state, tables, file, out, call) {
        Ok(said) => said,
        Err(refused) => Said::Refused(refused),
    }
}
