// Words 0 to 3 of the state: the settings and the number of nodes.
ghost use Rattle.std.specs.Prelude.{◌≡◌, ◌≤◌, length, set};
ghost use Rattle.model.specs.Join.{with_settings};
ghost use Rattle.model.specs.Memory.{state_length, digits};
ghost use Rattle.model.specs.Nodes.{is_node};
ghost use Rattle.state.specs.Loaded.{SettingsOf};

#[derive(Clone, Copy, Debug, PartialEq, Eq)]
pub struct Settings {
    pub base: usize,
    pub digits: usize,
    pub depth: usize,
    pub nodes: usize,
}

pub fn load(state: &[u64]) -> Settings
    requires { state_length ≤ length state.now }
    ensures { SettingsOf state.now result }
{
    Settings {
        base: state[0] as usize,
        digits: state[1] as usize,
        depth: state[2] as usize,
        nodes: state[3] as usize,
    }
}

// x is the number of a node.
pub fn is_node(state: &[u64], x: u64) -> bool
    requires { state_length ≤ length state.now }
    ensures { result ≡ is_node state.now x }
{
    (1..=load(state).nodes as u64).contains(&x)
}

// The number of digits alone, of memory of any length: 0 where it ends before.
pub fn digits(state: &[u64]) -> usize
    ensures { result ≡ digits state.now }
{
    state.get(1).copied().unwrap_or(0) as usize
}

pub fn store(state: &mut [u64], s: Settings)
    requires { state_length ≤ length state.old }
    ensures { state.new ≡ with_settings state.old s.base s.digits s.depth s.nodes }
{
    state[0] = s.base as u64;
    state[1] = s.digits as u64;
    state[2] = s.depth as u64;
    state[3] = s.nodes as u64;
}

// The number of nodes alone.
pub fn store_nodes(state: &mut [u64], nodes: usize)
    requires { state_length ≤ length state.old }
    ensures { state.new ≡ set state.old 3 nodes }
{
    state[3] = nodes as u64;
}
