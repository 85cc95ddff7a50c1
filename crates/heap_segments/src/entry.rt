// The entries of an address map, and the search among them.
ghost use Rattle.std.specs.Prelude.{◌≡◌, ◌≤◌, ◌<◌, ◌+◌, ◌-◌, ◌*◌, ◌^◌, ◌%◌, ℕ, length, take, IfSome, IfNone};
ghost use Rattle.spur_graph.specs.ImageFile.{header_bytes};
ghost use Rattle.spur_graph.specs.Segments.{is_bad_size, bridge_bytes, greatest_end, word_count, total_words, word_in, offset_in};
ghost use Rattle.heap_segments.specs.Rising.{end_place, segment_at};
ghost use Rattle.heap_segments.specs.Entries.{segment_of, segments_of, AreLaid, IsLastUpTo, IsNear, entry_at, word_within};

use spur_graph::{BRIDGE_BYTES, GREATEST_END, HEADER_BYTES};

/// Whether a segment can't have this size at this address, where so many bytes of the heap are left.
pub(crate) fn is_misfit(left: u64, size: u64, address: u64) -> bool
    ensures { result ≡ is_bad_size left size address }
{
    size % 8 != 0
        || size < BRIDGE_BYTES
        || left < size
        || address > GREATEST_END
        || size > GREATEST_END - address
}

/// A segment, and the word of the heap at which it begins.
#[derive(Clone, Copy)]
pub struct Entry {
    /// The segment's place in the file.
    pub at: u64,
    /// Its bytes, with the bridge.
    pub size: u64,
    /// Its address.
    pub address: u64,
    /// How many words of objects are before it.
    pub begin: usize,
}

impl Entry {
    /// How many words of objects the segment has.
    fn words(&self) -> usize
        requires { IsNear self.now }
        ensures { result ≡ word_count (segment_of self.now) }
    {
        ((self.size - BRIDGE_BYTES) / 8) as usize
    }

    /// The word that has an address in the segment.
    fn word(&self, address: u64) -> Option<usize>
        requires { IsNear self.now }
        ensures { result ≡ word_within self.now address }
    {
        if address % 8 != 0 || address < self.address {
            return None;
        }
        let within = ((address - self.address) / 8) as usize;
        if within >= self.words() {
            return None;
        }
        Some(self.begin + within)
    }

    /// The place in the file of a word that is so many words behind the segment's first one.
    fn offset(&self, within: usize) -> u64
        requires near { IsNear self.now }
        requires within { within ≤ word_count (segment_of self.now) }
        ensures { result ≡ (self.now).at + 8 * within }
    {
        self.at + 8 * within as u64
    }
}

/// The place in the file behind all segments, and the word behind all their words.
pub(crate) fn behind(entries: &[Entry]) -> (u64, usize)
    requires { AreLaid entries.now }
    ensures place { result.0 ≡ end_place header_bytes (segments_of entries.now) }
    ensures words { result.1 ≡ total_words (segments_of entries.now) }
{
    if entries.is_empty() {
        return (HEADER_BYTES as u64, 0);
    }
    let last = entries[entries.len() - 1];
    (last.at + last.size, last.begin + last.words())
}

/// The last entry whose address is at most this one, if there is one.
fn by_address(entries: &[Entry], address: u64) -> Option<usize>
    requires { AreLaid entries.now }
    ensures found { IfSome result (IsLastUpTo (λ e. e.address) entries.now address) }
    ensures none { IfNone result ((k : ℕ) → k < length entries.now → address < (entry_at entries.now k).address) }
{
    let behind = entries.partition_point(|entry| entry.address <= address);
    behind.checked_sub(1)
}

/// The last entry that begins at this word or before it.
fn by_word(entries: &[Entry], word: usize) -> usize
    requires laid { AreLaid entries.now }
    requires some { 0 < length entries.now }
    ensures { IsLastUpTo (λ e. e.begin) entries.now word result }
{
    let behind = entries.partition_point(|entry| entry.begin <= word);
    behind - 1
}

/// The word that has an address, by a search among all entries.
fn searched_word(entries: &[Entry], address: u64) -> Option<usize>
    requires { AreLaid entries.now }
    ensures { result ≡ word_in (segments_of entries.now) 0 address }
{
    let i = by_address(entries, address)?;
    let entry = entries[i];
    entry.word(address)
}

/// The word that has an address. No search is needed where the last entry does not lie above it, as with an image of one segment.
pub(crate) fn word_at(entries: &[Entry], address: u64) -> Option<usize>
    requires { AreLaid entries.now }
    ensures { result ≡ word_in (segments_of entries.now) 0 address }
{
    if entries.is_empty() {
        return None;
    }
    let last = entries[entries.len() - 1];
    if last.address > address {
        return searched_word(entries, address);
    }
    last.word(address)
}

/// The place in the file of a word, or of the end of all.
pub(crate) fn offset_of(entries: &[Entry], word: usize) -> u64
    requires laid { AreLaid entries.now }
    requires some { 0 < length entries.now }
    requires within { word ≤ total_words (segments_of entries.now) }
    ensures { result ≡ offset_in (segments_of entries.now) word }
{
    let i = by_word(entries, word);
    let entry = entries[i];
    entry.offset(word - entry.begin)
}

/// The word at which a segment begins; the end of all words where there is no such segment.
pub(crate) fn begin_of(entries: &[Entry], i: usize) -> usize
    requires { AreLaid entries.now }
    ensures { result ≡ total_words (take i (segments_of entries.now)) }
{
    if i >= entries.len() {
        return behind(entries).1;
    }
    let entry = entries[i];
    entry.begin
}

/// The place in the file of a segment.
pub(crate) fn place_of(entries: &[Entry], i: usize) -> u64
    requires laid { AreLaid entries.now }
    requires some { i < length entries.now }
    ensures place { result ≡ (segment_at (segments_of entries.now) i).at }
    ensures near { result + 8 * word_count (segment_at (segments_of entries.now) i) ≤ header_bytes + greatest_end }
    ensures within { result + (segment_at (segments_of entries.now) i).size ≤ end_place header_bytes (segments_of entries.now) }
{
    let entry = entries[i];
    entry.at
}

/// How many words of objects a segment has.
pub(crate) fn word_count_of(entries: &[Entry], i: usize) -> usize
    requires laid { AreLaid entries.now }
    requires some { i < length entries.now }
    ensures words { result ≡ word_count (segment_at (segments_of entries.now) i) }
    ensures bytes { 8 * result + bridge_bytes ≡ (segment_at (segments_of entries.now) i).size }
    ensures low { total_words (take i (segments_of entries.now)) + result ≤ 2 ^ 59 }
{
    let entry = entries[i];
    entry.words()
}
