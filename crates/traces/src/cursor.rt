// The cursor over the paths of a trace.
ghost use Rattle.std.specs.Prelude.{◌≡◌, ◌+◌, ◌<◌, None};
ghost use Rattle.model.specs.Image.{byte_at};
ghost use Rattle.model.specs.Traces.{place_count, step_count, place_named, step_allowed};
ghost use Rattle.trace_reading.specs.Read.{CountRight};
ghost use Rattle.traces.specs.Faults.{fault_in};
ghost use Rattle.traces.specs.Walked.{started, Walked};

use crate::fault::Fault;
use crate::path::Path;
use network::network::Network;

#[derive(Clone, Copy, Debug, PartialEq, Eq)]
pub struct Cursor {
    // how many paths it has passed, and where the next starts
    pub path: usize,
    pub at: usize,
    // among those, the first place that has no node
    pub unnamed: Option<Fault>,
    // and the first step that is not allowed, where every place has a node
    pub forbidden: Option<Fault>,
}

pub fn start() -> Cursor
    ensures { result ≡ started }
{
    Cursor {
        path: 0,
        at: 1,
        unnamed: None,
        forbidden: None,
    }
}

impl Cursor {
    // The first place without a node once this path is passed.
    fn unnamed_to(self, network: &Network<'_>, p: &Path<'_>) -> Option<Fault>
        requires { self.unnamed ≡ fault_in p.now.number (place_count p.now.trace.now) (place_named network.now.state.now p.now.trace.now) }
        ensures { result ≡ fault_in (p.now.number + 1) (place_count p.now.trace.now) (place_named network.now.state.now p.now.trace.now) }
    {
        if let Some(first) = self.unnamed {
            return Some(first);
        }
        let k = p.first_unnamed(network)?;
        Some(p.fault(k))
    }

    // The first step that is not allowed once this path is passed. It is not looked for where a place
    // has no node, since 9 goes before 23.
    fn forbidden_to(
        self,
        network: &Network<'_>,
        p: &Path<'_>,
        unnamed: Option<Fault>,
    ) -> Option<Fault>
        requires walked { Walked network.now.state.now network.now.tables.now p.now.trace.now self }
        requires number { p.now.number ≡ self.path }
        requires unnamed_to { unnamed ≡ fault_in (p.now.number + 1) (place_count p.now.trace.now) (place_named network.now.state.now p.now.trace.now) }
        ensures { unnamed ≡ None → result ≡ fault_in (p.now.number + 1) (step_count p.now.trace.now) (step_allowed network.now.state.now network.now.tables.now p.now.trace.now) }
    {
        if let Some(_) = unnamed {
            return self.forbidden;
        }
        if let Some(first) = self.forbidden {
            return Some(first);
        }
        let k = p.first_forbidden(network)?;
        Some(p.fault(k))
    }

    // Past the path at the cursor, which has this many places.
    pub fn pass(self, network: &Network<'_>, trace: &[u8], places: usize) -> Self
        requires walked { Walked network.now.state.now network.now.tables.now trace.now self }
        requires path_bound { self.path < 255 }
        requires count_right { CountRight trace.now self.at }
        requires places_read { places ≡ byte_at trace.now self.at }
        ensures next { result.path ≡ self.path + 1 }
        ensures walked { Walked network.now.state.now network.now.tables.now trace.now result }
    {
        let p = Path {
            trace,
            number: self.path,
            at: self.at,
            places,
        };
        let unnamed = self.unnamed_to(network, &p);
        Cursor {
            path: self.path + 1,
            at: self.at + 1 + places,
            unnamed,
            forbidden: self.forbidden_to(network, &p, unnamed),
        }
    }
}
