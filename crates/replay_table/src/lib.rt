// A node's record and table in words. The first line has at most 112 bytes, the entries 15,616.
#![tactic(auto)]

ghost use Rattle.std.specs.Prelude.{Some, ◌≤◌, length};
ghost use Rattle.putting.specs.Put.{Put};
ghost use Rattle.replay_table.specs.TableText.{table_text};

use crate::entries::entries;
use replay_panel::record;
use replay_panel::record::Record;
use std::fmt;

pub mod entries;

// Puts the words of a node and its table at the start of out, and answers how many bytes they are.
pub fn put(node: &Record<'_>, out: &mut [u8]) -> usize
    requires { 16384 ≤ length out.old }
    ensures put { Put out.old 0 (table_text node.now.network.state.now node.now.network.tables.now node.now.x) out.new result }
    ensures upper_bound { result ≤ 16384 }
{
    let x = node.x;
    let s = node.network.settings();
    let second = text::labelled(out, 0, b"table ", x as u64);
    let third = record::put(&node.network, x, out, second);
    let table = node.network.table(x);
    entries(table, s.digits, s.base, s.depth, out, third)
}

// A line of the node's record, and one for each entry of its table that is not empty, by rising level and digit.
#[derive(Clone, Copy)]
pub struct Table<'a>(pub Record<'a>);

impl<'a> fmt::Display for Table<'a> {
    ghost output = { λ t. Some (table_text t.0.network.state.now t.0.network.tables.now t.0.x) };

    fn fmt<W: fmt::Write>(&self, f: &mut fmt::Formatter<W>) -> fmt::Result {
        let mut room = [0; 16384];
        let end = put(&self.0, &mut room);
        text::shown(&room[..end], f)
    }
}
