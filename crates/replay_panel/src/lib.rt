// The panel: a line for each node. A line has at most 112 bytes, and the 64 of them 7,168.
#![tactic(auto)]

ghost use Rattle.std.specs.Prelude.{Some, ◌+◌, ◌≤◌, length};
ghost use Rattle.model.proofs.Status.{IsNode};
ghost use Rattle.putting.specs.Put.{Put};
ghost use Rattle.replay_panel.specs.PanelText.{node_text, panel_text};

use network::network::Network;
use std::fmt;

pub mod record;

fn line(network: &Network<'_>, x: usize, out: &mut [u8], at: usize) -> usize
    requires node { IsNode network.now.state.now x }
    requires at_in_bounds { at + 112 ≤ length out.old }
    ensures put { Put out.old at (node_text network.now.state.now x) out.new result }
    ensures upper_bound { result ≤ at + 112 }
{
    let end = text::labelled(out, at, b"node ", x as u64);
    record::put(network, x, out, end)
}

// Puts the panel at the start of out, and answers how many bytes it is.
pub fn put(network: &Network<'_>, out: &mut [u8]) -> usize
    requires { 7168 ≤ length out.old }
    ensures put { Put out.old 0 (panel_text network.now.state.now) out.new result }
    ensures upper_bound { result ≤ 7168 }
{
    let mut end = 0;
    for k in 0..network.nodes() {
        end = line(network, k + 1, out, end);
    }
    end
}

// A line for each node.
#[derive(Clone, Copy)]
pub struct Panel<'a>(pub Network<'a>);

impl<'a> fmt::Display for Panel<'a> {
    ghost output = { λ p. Some (panel_text p.0.state.now) };

    fn fmt<W: fmt::Write>(&self, f: &mut fmt::Formatter<W>) -> fmt::Result {
        let mut room = [0; 7168];
        let end = put(&self.0, &mut room);
        text::shown(&room[..end], f)
    }
}
