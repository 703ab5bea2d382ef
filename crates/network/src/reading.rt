// What is read of a network: its settings, and a node's id, record and table.
ghost use Rattle.std.specs.Prelude.{◌≡◌, length};
ghost use Rattle.model.specs.Memory.{node_count, node_of, id_of, table_of};
ghost use Rattle.model.specs.Nodes.{is_node};
ghost use Rattle.model.proofs.Status.{IsNode};
ghost use Rattle.state.specs.Loaded.{SettingsOf, book_node};

use crate::network::Network;
use state::record::Node;
use state::settings::Settings;
use state::{record, settings};
use tables::part;

impl<'a> Network<'a> {
    pub fn settings(&self) -> Settings
        ensures { SettingsOf self.now.state.now result }
    {
        settings::load(self.state)
    }

    // The number of nodes; they are numbered from 1.
    pub fn nodes(&self) -> usize
        ensures { result ≡ node_count self.now.state.now }
    {
        self.settings().nodes
    }

    // x is the number of a node.
    pub fn is_node(&self, x: u64) -> bool
        ensures { result ≡ is_node self.now.state.now x }
    {
        settings::is_node(self.state, x)
    }

    pub fn record(&self, x: usize) -> Node
        requires { IsNode self.now.state.now x }
        ensures { book_node result ≡ node_of self.now.state.now x }
    {
        record::load(self.state, x)
    }

    pub fn id(&self, x: usize) -> u32
        requires { IsNode self.now.state.now x }
        ensures { result ≡ id_of self.now.state.now x }
    {
        record::id(self.state, x) as u32
    }

    // Node x's table, 512 bytes of the lent table memory.
    pub fn table(&self, x: usize) -> &'a [u8]
        requires { IsNode self.now.state.now x }
        ensures { (result.now ≡ table_of self.now.tables.now x) × (length result.now ≡ 512) }
    {
        part::lent(self.tables, x)
    }
}
