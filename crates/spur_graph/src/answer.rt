// Values, and what a line is answered.

/// What a slot or a handle has: an immediate, or a reference to the object of a name.
#[derive(Clone, Copy, Debug, PartialEq, Eq)]
pub enum Value {
    /// A SmallInteger, -2^60 to 2^60 - 1.
    Int(i64),
    /// A Character, by its code, below 2^30.
    Char(u32),
    /// A SmallFloat, as its whole word, the low three bits of which are 100.
    Float(u64),
    /// The name of an object.
    Ref(u64),
}

/// What `kind` shows of a value.
#[derive(Clone, Copy, Debug, PartialEq, Eq)]
pub enum Shown {
    Int(i64),
    Char(u32),
    Float(u64),
    Nil,
    No,
    Yes,
    /// Any other object, by its class index and its format.
    Object { class: u32, format: u8 },
}

/// What `stat` counts: objects, handles and mourners, and the words that are free.
#[derive(Clone, Copy, Debug, PartialEq, Eq)]
pub struct Stat {
    pub nodes: u64,
    pub handles: u64,
    pub mourners: u64,
    /// Words of all free chunks of old space.
    pub free: u64,
    /// Words of the largest free chunk of old space.
    pub largest: u64,
    /// Words left in eden.
    pub eden: u64,
    /// Words used in the past survivor space.
    pub past: u64,
}

/// A need of words that nothing serves, the words of the largest free chunk, and the words left in eden, 0 for a command that asks
/// old space alone.
#[derive(Clone, Copy, Debug, PartialEq, Eq)]
pub struct Full {
    pub need: u64,
    pub largest: u64,
    pub eden: u64,
}

/// Why the bytes of a segment file are refused.
#[derive(Clone, Copy, Debug, PartialEq, Eq)]
pub enum SegmentCause {
    Short,
    Magic,
    Count,
    Tail,
    Head,
    Slot,
}

/// Why a line is refused. A refused line changes nothing.
#[derive(Clone, Copy, Debug, PartialEq, Eq)]
pub enum Refusal {
    Long,
    Syntax,
    /// The line or its command is not served.
    Unsupported,
    Unknown,
    Handles,
    Immediate,
    Special,
    Pinned,
    ReadOnly,
    Mourning,
    Classed,
    Index,
    Raw,
    Range,
    Size,
    Class,
    Hashed,
    Inside,
    Outs,
    NoMourner,
    Name,
    Table,
    Full(Full),
    Segment {
        cause: SegmentCause,
        /// A byte offset in the file, or the file's length.
        at: u64,
    },
}

/// What a collection counts.
#[derive(Clone, Copy, Debug, PartialEq, Eq)]
pub struct Counts {
    /// The weak slots that became nil.
    pub nilled: u64,
    /// The ephemerons that fired.
    pub fired: u64,
}

/// What a line is answered.
#[derive(Clone, Copy, Debug, PartialEq, Eq)]
pub enum Answer {
    Done,
    Truth(bool),
    Number(u64),
    Shown(Shown),
    Size { pointers: u64, units: u64 },
    Counts { nilled: u64, fired: u64 },
    Stat(Stat),
    Refused(Refusal),
}
