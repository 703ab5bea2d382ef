// Sets of nodes, 64 bits each: bit x − 1 for node x.
ghost use Rattle.std.specs.Prelude.{◌≡◌, ◌||◌, ◌≤◌, ◌^◌, eqb, ltb};
ghost use Rattle.model.specs.Memory.{has_node, add_node, remove_node, set_size};
ghost use Rattle.state.specs.Loaded.{Numbered};

// The set that names no node.
pub const EMPTY: u64 = 0;

pub fn has(nodes: u64, x: usize) -> bool
    requires { Numbered x }
    ensures { result ≡ has_node nodes x }
{
    (nodes >> (x - 1)) & 1 == 1
}

// One of the two is in the set.
pub fn has_either(nodes: u64, x: usize, y: usize) -> bool
    requires x_numbered { Numbered x }
    requires y_numbered { Numbered y }
    ensures { result ≡ (has_node nodes x || has_node nodes y) }
{
    has(nodes, x) || has(nodes, y)
}

pub fn add(nodes: u64, x: usize) -> u64
    requires { Numbered x }
    ensures { result ≡ add_node nodes x }
{
    nodes | (1 << (x - 1))
}

pub fn remove(nodes: u64, x: usize) -> u64
    requires { Numbered x }
    ensures { result ≡ remove_node nodes x }
{
    if has(nodes, x) {
        return nodes ^ (1 << (x - 1));
    }
    nodes
}

// The set names no node.
pub fn is_empty(nodes: u64) -> bool
    ensures { result ≡ eqb nodes 0 }
{
    nodes == 0
}

// How many nodes the set has.
pub fn size(nodes: u64) -> u64
    ensures { result ≡ set_size nodes }
{
    u64::count_ones(nodes) as u64
}

// The set names no number above n.
pub fn only_below(nodes: u64, n: usize) -> bool
    requires { n ≤ 64 }
    ensures { result ≡ ltb nodes (2 ^ n) }
{
    n == 64 || nodes >> n == 0
}
