// One path of a trace.
ghost use Rattle.std.specs.Prelude.{◌≡◌, ◌+◌, ◌-◌, ◌≤◌, ◌<◌, true, IfNone, IfSome};
ghost use Rattle.model.specs.Loops.{all_below, first_below};
ghost use Rattle.model.specs.Traces.{place_named, step_allowed};
ghost use Rattle.traces.specs.Paths.{Stands, PathNamed, unnamed, forbidden};

use crate::fault::Fault;
use network::network::Network;
use routing::may_go;

// Which path of the trace it is, from 0, where its count stands, and how many places it has.
#[derive(Clone, Copy)]
pub struct Path<'a> {
    pub trace: &'a [u8],
    pub number: usize,
    pub at: usize,
    pub places: usize,
    ghost stands: { Stands trace.now number at places },
}

impl<'a> Path<'a> {
    // The first of its places that has no node.
    pub fn first_unnamed(&self, network: &Network<'_>) -> Option<usize>
        ensures none { IfNone result (all_below self.now.places (place_named network.now.state.now self.now.trace.now self.now.number) ≡ true) }
        ensures some { IfSome result (λ k. (k < self.now.places) × (k ≡ first_below self.now.places (unnamed network.now.state.now self.now.trace.now self.now.number))) }
    {
        (0..self.places).find(|k| !network.is_node(self.trace[self.at + 1 + *k] as u64))
    }

    // The first of its steps that is not allowed.
    pub fn first_forbidden(&self, network: &Network<'_>) -> Option<usize>
        requires { PathNamed network.now.state.now self.now.trace.now self.now.number self.now.places }
        ensures none { IfNone result (all_below (self.now.places - 1) (step_allowed network.now.state.now network.now.tables.now self.now.trace.now self.now.number) ≡ true) }
        ensures some { IfSome result (λ k. (k < self.now.places - 1) × (k ≡ first_below (self.now.places - 1) (forbidden network.now.state.now network.now.tables.now self.now.trace.now self.now.number))) }
    {
        let steps = self.places - 1;
        let z = self.trace[self.at + 1 + steps] as usize;
        for k in 0..steps {
            let u = self.trace[self.at + 1 + k] as usize;
            let v = self.trace[self.at + 1 + (k + 1)] as usize;
            if !may_go(network, u, v, z) {
                return Some(k);
            }
        }
        None
    }

    // A fault of it at place or step k, from 0.
    pub fn fault(&self, k: usize) -> Fault
        requires { k ≤ 9 }
        ensures { result ≡ record { path = self.now.number + 1; place = k + 1 } }
    {
        Fault {
            path: self.number + 1,
            place: k + 1,
        }
    }
}
