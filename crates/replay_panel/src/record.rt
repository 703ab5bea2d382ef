// What a line says of a node behind its number: id, status and counts. It has at most 86 bytes, of which the counts may have 61: a number
// is given room for 20 digits.
ghost use Rattle.std.specs.Prelude.{Some, ◌+◌, ◌≤◌, ◌++◌, length};
ghost use Rattle.model.proofs.Status.{IsNode};
ghost use Rattle.putting.specs.Put.{Put};
ghost use Rattle.text.specs.Ascii.{ascii};
ghost use Rattle.replay_panel.specs.PanelText.{status_text, counts_text, record_text};

use network::network::Network;
use putting::piece;
use state::record::Node;
use state::status::Status;
use std::fmt;

// The paper's word for a status.
#[tactic(auto, unfolding(crate::specs::PanelText::status_text))]
fn status(out: &mut [u8], at: usize, number: u64) -> usize
    requires { at + 9 ≤ length out.old }
    ensures put { Put out.old at (status_text number) out.new result }
    ensures upper_bound { result ≤ at + 9 }
{
    match number {
        Status::IN_SYSTEM => piece(out, at, b"settled"),
        Status::COPYING => piece(out, at, b"copying"),
        Status::WAITING => piece(out, at, b"waiting"),
        _ => piece(out, at, b"notifying"),
    }
}

// The copy and wait requests that a node has sent, and its notices that were answered.
fn counts(out: &mut [u8], at: usize, requests: u64, notices: u64) -> usize
    requires { at + 61 ≤ length out.old }
    ensures put { Put out.old at (counts_text requests notices) out.new result }
    ensures upper_bound { result ≤ at + 61 }
{
    let second = text::labelled(out, at, b", requests ", requests);
    text::labelled(out, second, b", notices ", notices)
}

// The rest of the line from the status on.
fn status_end(out: &mut [u8], at: usize, node: Node) -> usize
    requires { at + 73 ≤ length out.old }
    ensures put { Put out.old at (ascii ", " ++ (status_text node.status ++ (counts_text node.requests node.notices ++ ascii "\n"))) out.new result }
    ensures upper_bound { result ≤ at + 73 }
{
    let second = piece(out, at, b", ");
    let third = status(out, second, node.status);
    let fourth = counts(out, third, node.requests, node.notices);
    piece(out, fourth, b"\n")
}

// Puts the words of node x at this place, and answers the place behind them.
pub fn put(network: &Network<'_>, x: usize, out: &mut [u8], at: usize) -> usize
    requires node { IsNode network.now.state.now x }
    requires at_in_bounds { at + 86 ≤ length out.old }
    ensures put { Put out.old at (record_text network.now.state.now x) out.new result }
    ensures upper_bound { result ≤ at + 86 }
{
    let node = network.record(x);
    let digits = network.settings().digits;
    let second = piece(out, at, b": id ");
    let third = text::hex(out, second, node.id, digits);
    status_end(out, third, node)
}

// A node's words behind its number: id, status and counts.
#[derive(Clone, Copy)]
pub struct Record<'a> {
    pub network: Network<'a>,
    pub x: usize,
    ghost node: { IsNode network.state.now x },
}

impl<'a> fmt::Display for Record<'a> {
    ghost output = { λ r. Some (record_text r.network.state.now r.x) };

    fn fmt<W: fmt::Write>(&self, f: &mut fmt::Formatter<W>) -> fmt::Result {
        let mut room = [0; 86];
        let end = put(&self.network, self.x, &mut room, 0);
        text::shown(&room[..end], f)
    }
}
