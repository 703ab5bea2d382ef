// Why a call is refused: document 01, "What a call declines", and document 02, Tickets 2, 5, 6, 8, 9 and 10. Each refusal has the documents' number;
// include/overlay.h has the same names behind OVERLAY_.
ghost use Rattle.std.specs.Prelude.{◌≡◌};
ghost use Rattle.answers.specs.Numbers.{number_of};

#[derive(Clone, Copy, Debug, PartialEq, Eq)]
pub enum Refusal {
    // state or tables are shorter than their fixed length
    ShortMemory = 1,

    // the state is not sound
    Unsound = 2,

    // the image is shorter than its settings, which take 5 bytes, or does not begin with their count, 4
    NotAnImage = 3,

    // the image, or the one to be written, is of another version than 1 and 2
    ImageVersion = 4,

    // the base is not from 2 to 16, the digits not from 1 to 8, or the depth not from 1 to 4
    BadSetting = 5,

    // the image's node count is missing or not from 1 to 64, or its length is not what the counts say or above 65,535
    ImageCounts = 6,

    // an id is not valid: one of its digits is not below the base, or something stands above them
    BadId = 7,

    // a node has the id already, or two of the image have it
    IdTaken = 8,

    // a number of the call, but for those of a set, or of a record of the image, or at a place of the trace, is no node's
    NoSuchNode = 9,

    // a record's level or digit is out of range, or it is below the one before it
    RecordOrder = 10,

    // there are 64 nodes
    Full = 11,

    // the gateway is not in system
    GatewayNotInSystem = 12,

    // the sender has no request to the receiver outstanding
    NotOutstanding = 13,

    // the sender waits, and the receiver is not in system: the request stays outstanding
    Held = 14,

    // some node is not in system
    JoinInFlight = 15,

    // the memory for the image is too short
    ShortOutput = 16,

    // a record's neighbour isn't qualified for its entry, is in it already, or finds it full
    RecordNeighbor = 17,

    // an own entry has no record, or does not start with its owner
    OwnEntry = 18,

    // the node is not the highest-numbered one
    NotHighest = 19,

    // the node is in system or notifying
    HasAttached = 20,

    // the start or the destination of a lookup has failed
    HasFailed = 21,

    // the trace is empty, a path's count is not from 1 to 9, or its length is not what the counts say
    TraceCounts = 22,

    // a path of the trace goes on past its destination, or to no node of the entry that the lookup rule names
    StepNotAllowed = 23,

    // the joins or the counts of an image of version 2 are listed wrong, or the state that it gives is not sound
    UnsoundImage = 24,
}

// The documents' number.
impl From<Refusal> for u64 {
    ghost from_gives = { λ r n. n ≡ number_of r };

    fn from(refusal: Refusal) -> u64 {
        refusal as u64
    }
}

// Each place is a number and no Option, since the C interface answers that number.
// An image refused: with refusals 10, 17 and 18 the place of the record, counted from 1, or 0 where an own entry has no record; with any other 0.
#[derive(Clone, Copy, Debug, PartialEq, Eq)]
pub struct ImageRefused {
    pub refusal: Refusal,
    pub place: u64,
}

// A trace refused: with refusal 9 path and place of the first number that is no node's, with 23 path and step of the first step that is not allowed,
// all counted from 1; with any other zeros.
#[derive(Clone, Copy, Debug, PartialEq, Eq)]
pub struct TraceRefused {
    pub refusal: Refusal,
    pub path: u64,
    pub place: u64,
}

// A refusal that is about no record.
impl From<Refusal> for ImageRefused {
    ghost from_gives = { λ r e. (e.refusal ≡ r) × (e.place ≡ 0) };

    fn from(refusal: Refusal) -> ImageRefused {
        ImageRefused { refusal, place: 0 }
    }
}

// A refusal that is about no path.
impl From<Refusal> for TraceRefused {
    ghost from_gives = { λ r e. (e.refusal ≡ r) × ((e.path ≡ 0) × (e.place ≡ 0)) };

    fn from(refusal: Refusal) -> TraceRefused {
        TraceRefused {
            refusal,
            path: 0,
            place: 0,
        }
    }
}
