#![tactic(auto)]

// A call on a network with its arguments, as programs hold it.
#[derive(Clone, Copy, Debug, PartialEq, Eq)]
pub enum Call {
    // base, digits, depth, id
    Found(u64, u64, u64, u32),
    // of the image that is lent with the call
    Read,
    // id, gateway
    Begin(u32, u64),
    // the node
    Withdraw(u64),
    // sender, receiver
    Deliver(u64, u64),
    // from, to, the set of failed nodes
    Lookup(u64, u64, u64),
    // the set of failed nodes
    Survey(u64),
    Verdict,
    // the list to the memory that is lent for output
    Fill,
    // the version, to the memory that is lent for output
    Write(u64),
    // of the trace that is lent with the call
    Trace,
    Sound,
}
