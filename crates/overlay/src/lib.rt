// The C interface: see include/overlay.h. Each function is one public call of the engine on lent memory, with its answer packed into 64
// bits; bits 0 to 7 are the refusal. The counts of a survey go to words that the caller lends.
#![tactic(auto)]

ghost use Rattle.std.specs.Prelude.{◌≡◌, [], ◌∷◌};
ghost use Rattle.model.specs.Calls.{found_call, read_call, begin_call, withdraw_call, deliver_call, lookup_call, survey_call, verdict_call, fill_call, write_call, trace_call, sound_call};
ghost use Rattle.state.specs.Lent.{memory};
ghost use Rattle.engine.specs.Outcomes.{leaves};
ghost use Rattle.overlay.specs.Packed.{gives, outputs, packing, surveying};

use packing::numbers::{of_call, of_reading, of_trace};
use packing::pack::pack;

// Founding: base, digits, depth and the id of node 1. Answers the refusal.
#[unsafe(no_mangle)]
pub extern "C" fn overlay_found(
    state: &mut [u64],
    tables: &mut [u8],
    base: u64,
    digits: u64,
    depth: u64,
    id: u32,
) -> u64
    ensures { leaves (memory state.new tables.new) (result ∷ []) ≡ found_call (memory state.old tables.old) base digits depth id }
{
    of_call(engine::founding::found(state, tables, base, digits, depth, id)).refusal
}

// Reading an image into the memory; of version 1 every node is in system. Answers with 10, 17 and 18 the place of the record.
#[unsafe(no_mangle)]
pub extern "C" fn overlay_read(state: &mut [u64], tables: &mut [u8], image: &[u8]) -> u64
    ensures { gives (memory state.new tables.new) result ≡ packing (read_call (memory state.old tables.old) image.now) }
{
    pack(of_reading(engine::reading::read(state, tables, image)))
}

// Beginning a join: the id and the gateway. Answers the new node.
#[unsafe(no_mangle)]
pub extern "C" fn overlay_begin(state: &mut [u64], tables: &mut [u8], id: u32, gateway: u64) -> u64
    ensures { gives (memory state.new tables.new) result ≡ packing (begin_call (memory state.old tables.old) id gateway) }
{
    pack(of_call(engine::beginning::begin(state, tables, id, gateway)))
}

// Withdrawing a join: the highest-numbered node, while it copies or waits. Answers the refusal.
#[unsafe(no_mangle)]
pub extern "C" fn overlay_withdraw(state: &mut [u64], tables: &mut [u8], node: u64) -> u64
    ensures { leaves (memory state.new tables.new) (result ∷ []) ≡ withdraw_call (memory state.old tables.old) node }
{
    of_call(engine::withdrawing::withdraw(state, tables, node)).refusal
}

// Delivering the request of one node to another. Answers what it was, the attach level if it attached, and whether the sender settled.
#[unsafe(no_mangle)]
pub extern "C" fn overlay_deliver(
    state: &mut [u64],
    tables: &mut [u8],
    sender: u64,
    receiver: u64,
) -> u64
    ensures { gives (memory state.new tables.new) result ≡ packing (deliver_call (memory state.old tables.old) sender receiver) }
{
    pack(of_call(engine::delivering::deliver(state, tables, sender, receiver)))
}

// Lookup from one node to another around the failed ones. Answers whether it arrived, the hops and the last node.
#[unsafe(no_mangle)]
pub extern "C" fn overlay_lookup(
    state: &[u64],
    tables: &[u8],
    from: u64,
    to: u64,
    failed: u64,
) -> u64
    ensures { gives (memory state.now tables.now) result ≡ packing (lookup_call (memory state.now tables.now) from to failed) }
{
    pack(of_call(engine::lookup::lookup(state, tables, from, to, failed)))
}

// The hop survey of the nodes that have not failed. Answers the refusal; where that is 0, counts are the pairs for 1 to 8 hops and the lost ones, else
// they stay.
#[unsafe(no_mangle)]
pub extern "C" fn overlay_survey(
    state: &[u64],
    tables: &[u8],
    failed: u64,
    counts: &mut [u64; 9],
) -> u64
    ensures { outputs (memory state.now tables.now) counts.new result ≡ surveying (survey_call (memory state.now tables.now) failed) counts.old }
{
    match engine::survey::survey(state, tables, failed) {
        Ok(found) => {
            *counts = found;
            0
        },
        Err(refusal) => refusal.into(),
    }
}

// The verdict. Answers whether the network is K-consistent, and if not, node, level and digit of the first entry that falls short.
#[unsafe(no_mangle)]
pub extern "C" fn overlay_verdict(state: &[u64], tables: &[u8]) -> u64
    ensures { gives (memory state.now tables.now) result ≡ packing (verdict_call (memory state.now tables.now)) }
{
    pack(of_call(engine::verdict::verdict(state, tables)))
}

// Filling short tables: the additions are listed in out. Answers how many they are, in bits 8 to 39.
#[unsafe(no_mangle)]
pub extern "C" fn overlay_fill(state: &[u64], tables: &mut [u8], out: &mut [u8]) -> u64
    ensures { outputs (memory state.now tables.new) out.new result ≡ packing (fill_call (memory state.now tables.old) out.old) }
{
    pack(of_call(engine::fill::fill(state, tables, out)))
}

// Writing the image of this version to out. Answers its length, in bits 8 to 39.
#[unsafe(no_mangle)]
pub extern "C" fn overlay_write(state: &[u64], tables: &[u8], version: u64, out: &mut [u8]) -> u64
    ensures { outputs (memory state.now tables.now) out.new result ≡ packing (write_call (memory state.now tables.now) version out.old) }
{
    pack(of_call(engine::writing::write(state, tables, version, out)))
}

// The check of a state. Answers the refusal: 1 too short, 2 not sound, 0 neither.
#[unsafe(no_mangle)]
pub extern "C" fn overlay_sound(state: &[u64], tables: &[u8]) -> u64
    ensures { leaves (memory state.now tables.now) (result ∷ []) ≡ sound_call (memory state.now tables.now) }
{
    of_call(engine::sound::sound(state, tables)).refusal
}

// The check of a trace of another router. Answers, with refusals 9 and 23, path and place.
#[unsafe(no_mangle)]
pub extern "C" fn overlay_trace(state: &[u64], tables: &[u8], trace: &[u8]) -> u64
    ensures { gives (memory state.now tables.now) result ≡ packing (trace_call (memory state.now tables.now) trace.now) }
{
    pack(of_trace(engine::tracing::trace(state, tables, trace)))
}
