// A node's record: words 8x to 8x + 7 of the state for node x.
ghost use Rattle.std.specs.Prelude.{◌≡◌};
ghost use Rattle.model.specs.Memory.{with_node, node_of, id_of, status_of};
ghost use Rattle.state.specs.Loaded.{Placed, book_node};

#[derive(Clone, Copy, Debug, PartialEq, Eq)]
pub struct Node {
    pub id: u64,
    pub status: u64,
    pub level: u64,
    pub target: u64,
    pub pending: u64,
    pub notified: u64,
    pub requests: u64,
    pub notices: u64,
}

pub fn load(state: &[u64], x: usize) -> Node
    requires { Placed state.now x }
    ensures { book_node result ≡ node_of state.now x }
{
    let at = 8 * x;
    Node {
        id: state[at],
        status: state[at + 1],
        level: state[at + 2],
        target: state[at + 3],
        pending: state[at + 4],
        notified: state[at + 5],
        requests: state[at + 6],
        notices: state[at + 7],
    }
}

pub fn store(state: &mut [u64], x: usize, r: Node)
    requires { Placed state.old x }
    ensures { state.new ≡ with_node state.old x (book_node r) }
{
    let at = 8 * x;
    state[at] = r.id;
    state[at + 1] = r.status;
    state[at + 2] = r.level;
    state[at + 3] = r.target;
    state[at + 4] = r.pending;
    state[at + 5] = r.notified;
    state[at + 6] = r.requests;
    state[at + 7] = r.notices;
}

// The id alone.
pub fn id(state: &[u64], x: usize) -> u64
    requires { Placed state.now x }
    ensures { result ≡ id_of state.now x }
{
    state[8 * x]
}

// The status alone.
pub fn status(state: &[u64], x: usize) -> u64
    requires { Placed state.now x }
    ensures { result ≡ status_of state.now x }
{
    state[8 * x + 1]
}
