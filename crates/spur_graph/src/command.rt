// The commands of a script.

use arrayvec::ArrayString;

/// The name of a handle: 1 to 16 lower-case letters, digits or `_`, a letter first.
pub type HandleName = ArrayString<16>;

/// The name of a file: 1 to 64 letters, digits, `.`, `_` or `-`, a letter or a digit first.
pub type FileName = ArrayString<64>;

/// A command of the script language. `h` is the handle that it binds, or lets go in `Drop`, `i` an index, `n` a number or a size;
/// docs/SCRIPT.md says what each answers.
#[derive(Clone, Copy, Debug, PartialEq, Eq)]
pub enum Command {
    Special {
        h: HandleName,
    },
    Nil {
        h: HandleName,
    },
    /// The command `true`.
    Yes {
        h: HandleName,
    },
    /// The command `false`.
    No {
        h: HandleName,
    },
    Int {
        h: HandleName,
        n: i128,
    },
    Char {
        h: HandleName,
        n: u128,
    },
    Float {
        h: HandleName,
        word: u64,
    },
    Copy {
        h: HandleName,
        o: HandleName,
    },
    Drop {
        h: HandleName,
    },
    Kind {
        o: HandleName,
    },
    Class {
        h: HandleName,
        o: HandleName,
    },
    Size {
        o: HandleName,
    },
    Hash {
        o: HandleName,
    },
    Fetch {
        h: HandleName,
        o: HandleName,
        i: u128,
    },
    Store {
        o: HandleName,
        i: u128,
        v: HandleName,
    },
    Unit {
        o: HandleName,
        i: u128,
    },
    SetUnit {
        o: HandleName,
        i: u128,
        n: u128,
    },
    Same {
        a: HandleName,
        b: HandleName,
    },
    New {
        h: HandleName,
        c: HandleName,
        n: u128,
    },
    NewOld {
        h: HandleName,
        c: HandleName,
        n: u128,
    },
    Enter {
        c: HandleName,
    },
    Become {
        a: HandleName,
        b: HandleName,
    },
    /// `hash` tells whether the word `hash` stands at the end.
    Forward {
        a: HandleName,
        b: HandleName,
        hash: bool,
    },
    Pin {
        o: HandleName,
    },
    Unpin {
        o: HandleName,
    },
    ReadOnly {
        o: HandleName,
    },
    Writable {
        o: HandleName,
    },
    Scavenge,
    Gc,
    Mourn {
        h: HandleName,
    },
    SegStore {
        h: HandleName,
        o: HandleName,
        c: HandleName,
        name: FileName,
    },
    SegLoad {
        h: HandleName,
        a: HandleName,
        name: FileName,
    },
    Save {
        name: FileName,
    },
    Stat,
}

/// A command of one of the 16 mutators; a line without a mark is of mutator 0.
#[derive(Clone, Copy, Debug, PartialEq, Eq)]
pub struct Line {
    pub mutator: u8,
    pub command: Command,
}
