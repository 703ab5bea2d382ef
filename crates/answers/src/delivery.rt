// What a delivery was: the sender copied, or it waited and was sent on to another or attached, or it notified.
#[derive(Clone, Copy, Debug, PartialEq, Eq)]
pub enum Kind {
    Copied,
    SentOn,
    // at this level
    Attached(u64),
    Notified,
}

// A delivery: its kind, and whether the sender settled.
#[derive(Clone, Copy, Debug, PartialEq, Eq)]
pub struct Delivery {
    pub kind: Kind,
    pub settled: bool,
}
