// The settings and the ids.
ghost use Rattle.std.specs.Prelude.{◌+◌, ◌≤◌, length, [], ◌∷◌};
ghost use Rattle.model.specs.Memory.{base, digits, depth, node_count};
ghost use Rattle.model.specs.Image.{id_bytes};
ghost use Rattle.model.specs.Nodes.{join_nodes};
ghost use Rattle.putting.specs.Put.{Put};

use network::network::Network;

// The settings after their count, 4: the version, base, digits and depth. Then the number of nodes.
pub fn header(network: &Network<'_>, version: u8, out: &mut [u8]) -> usize
    requires { 6 ≤ length out.old }
    ensures { Put out.old 0 (4 ∷ version ∷ base network.now.state.now ∷ digits network.now.state.now ∷ depth network.now.state.now ∷ node_count network.now.state.now ∷ []) out.new result }
{
    // `as`: the value is proved to fit, and `u8::try_from` would answer an error that cannot come.
    let s = network.settings();
    let at = putting::four(out, 0, 4, version, s.base as u8, s.digits as u8);
    putting::two(out, at, s.depth as u8, s.nodes as u8)
}

// Each id in four bytes, the low byte first.
pub fn all(network: &Network<'_>, out: &mut [u8], at: usize) -> usize
    requires { at + length (join_nodes network.now.state.now (id_bytes network.now.state.now)) ≤ length out.old }
    ensures { Put out.old at (join_nodes network.now.state.now (id_bytes network.now.state.now)) out.new result }
{
    let mut end = at;
    for x in 1..network.nodes() + 1 {
        let id = network.id(x).to_le_bytes();
        end = putting::piece(out, end, &id);
    }
    end
}
