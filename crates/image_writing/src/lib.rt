// The image of a sound state in lent memory: document 01, "The image", and of version 2 document 02, ticket 9. How long it is, and its bytes.
#![tactic(auto)]

mod measure;

ghost use Rattle.std.specs.Prelude.{◌≡◌, ◌++◌, ◌+◌, ◌≤◌, ◌<◌, length, drop};
ghost use Rattle.model.specs.Image.{has_joins, records_bytes, rest_bytes, image_of};
ghost use Rattle.putting.specs.Put.{Put};

use image_writing_parts::{counts, ids, joins, slots};
use network::network::Network;

// Version 2 has the sections of joins under way and of counts.
pub fn has_joins(version: u64) -> bool
    ensures { result ≡ has_joins version }
{
    version == 2
}

// How many bytes the image takes.
pub fn image_length(network: &Network<'_>, version: u64) -> usize
    ensures { result ≡ length (image_of version network.now.state.now network.now.tables.now) }
{
    8 + 4 * network.nodes() + measure::records(network) + measure::rest(network, version)
}

// The records behind their count, which is known when they are written.
fn records(network: &Network<'_>, out: &mut [u8], at: usize) -> usize
    requires { at + length (records_bytes network.now.state.now network.now.tables.now) ≤ length out.old }
    ensures { Put out.old at (records_bytes network.now.state.now network.now.tables.now) out.new result }
{
    let end = slots::all(network, out, at + 2);
    let count = (end - (at + 2)) / 4;
    // `as`: the value is proved to fit, and `u8::try_from` would answer an error that cannot come.
    putting::two(out, at, (count % 256) as u8, (count / 256 % 256) as u8);
    end
}

// The joins under way and the counts, where the version has them.
fn rest(network: &Network<'_>, version: u64, out: &mut [u8], at: usize) -> usize
    requires { at + length (rest_bytes version network.now.state.now) ≤ length out.old }
    ensures { Put out.old at (rest_bytes version network.now.state.now) out.new result }
{
    if !has_joins(version) {
        return at;
    }
    let end = joins::all(network, measure::joins(network), out, at);
    counts::all(network, out, end)
}

// Writes it from the start of out, and answers its length. What lies past it stays.
pub fn write(network: &Network<'_>, version: u64, out: &mut [u8]) -> usize
    requires version_bound { version < 256 }
    requires room { length (image_of version network.now.state.now network.now.tables.now) ≤ length out.old }
    ensures { (out.new ≡ image_of version network.now.state.now network.now.tables.now ++ drop (length (image_of version network.now.state.now network.now.tables.now)) out.old) × (result ≡ length (image_of version network.now.state.now network.now.tables.now)) }
{
    let first = ids::header(network, version as u8, out);
    let at = ids::all(network, out, first);
    let end = records(network, out, at);
    rest(network, version, out, end)
}
