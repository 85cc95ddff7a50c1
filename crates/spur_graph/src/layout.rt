// The numbers that the format of an image fixes: of its file, of its segments, and of the objects that are internal, the first chunks and the
// class table.

/// The number of the format of 64-bit Spur images.
pub const SPUR_FORMAT: u32 = 68_021;

/// Bytes of the header of an image file, behind which the first segment lies.
pub const HEADER_BYTES: usize = 128;

/// Bytes of the bridge at the end of a segment.
pub const BRIDGE_BYTES: u64 = 16;

/// The greatest address that a heap may begin at, a choice of this project.
pub const GREATEST_BASE: u64 = 1 << 60;

/// The greatest address that a segment may end at, a choice of this project.
pub const GREATEST_END: u64 = 1 << 62;

/// The format of a forwarder that is made, Spur's own. Of one that is read the format plays no part.
pub const FORWARDER_FORMAT: u64 = 7;

/// Which of the chunks is the free lists object.
pub const FREE_LISTS: usize = 3;

/// Which of the chunks is the hidden roots.
pub const HIDDEN_ROOTS: usize = 4;

/// The slots of the hidden roots.
pub const HIDDEN_ROOTS_SLOTS: usize = 4104;

/// How many of the first of these slots are places of class table pages.
pub const PAGE_PLACES: usize = 4096;

/// The entries of a class table page.
pub const PAGE_ENTRIES: usize = 1024;
