// What the head words of a chunk tell of it.
ghost use Rattle.std.specs.Prelude.{◌≡◌, ◌<◌, ◌≤◌, ◌+◌, ◌^◌, length, slice_index};
ghost use Rattle.object_header.specs.Formats.{pointer_slots_of};
ghost use Rattle.object_header.specs.Head.{format_of, literals_of};
ghost use Rattle.object_header.specs.Chunks.{chunk_of, StandsAt, slots_at};
ghost use Rattle.heap_walk.specs.Shapes.{lead_at, words_at};

use object_header::{Header, OVERFLOW_COUNT, OverflowSlotsField};

/// Where the words of a chunk are: its header, how many slots are behind it, and its end.
#[derive(Clone, Copy)]
pub struct Span {
    pub start: usize,
    pub slots: usize,
    pub end: usize,
}

/// The chunk whose first word, at the index `at`, is this one.
#[tactic(auto, unfolding(object_header::specs::Chunks::chunk_of))]
pub fn span_of(at: usize, first: u64) -> Span
    requires { at < 2 ^ 62 }
    ensures start { result.start ≡ (chunk_of at first).start }
    ensures slots { result.slots ≡ (chunk_of at first).slots }
    ensures end { result.end ≡ at + (chunk_of at first).size }
{
    let count = Header(first).count();
    if count == OVERFLOW_COUNT {
        let slots = OverflowSlotsField::get(first) as usize;
        return Span {
            start: at + 1,
            slots,
            end: at + 2 + slots.max(1),
        };
    }
    let slots = count as usize;
    Span {
        start: at,
        slots,
        end: at + 1 + slots.max(1),
    }
}

/// The number of slots of the chunk whose header stands at the word `start`.
#[tactic(auto, unfolding(object_header::specs::Chunks::slots_at))]
pub fn slots_of(words: &[u64], start: usize) -> usize
    requires { StandsAt words.now start }
    ensures value { result ≡ slots_at words.now start }
    ensures fits { start + 1 + result ≤ length words.now }
{
    let count = Header(words[start]).count();
    if count == OVERFLOW_COUNT {
        OverflowSlotsField::get(words[start - 1]) as usize
    } else {
        count as usize
    }
}

/// How many of these slots are pointers, of an object.
pub fn pointers_of(words: &[u64], start: usize) -> usize
    requires { StandsAt words.now start }
    ensures { result ≡ pointer_slots_of (format_of (slice_index words.now start)) (slots_at words.now start) (literals_of (slice_index words.now (start + 1))) }
{
    let _end = words.len();
    Header(words[start]).pointer_slots(slots_of(words, start), words[start + 1])
}

/// How many words of the chunk whose header stands at the word `start` are before the header: one
/// where it has an overflow word, else none.
pub fn lead_of(words: &[u64], start: usize) -> usize
    requires { start < length words.now }
    ensures value { result ≡ lead_at words.now start }
    ensures few { result ≤ 1 }
{
    if Header(words[start]).count() == OVERFLOW_COUNT {
        1
    } else {
        0
    }
}

/// How many words that chunk has, with those before its header.
pub fn words_of(words: &[u64], start: usize) -> usize
    requires { StandsAt words.now start }
    ensures value { result ≡ words_at words.now start }
    ensures fits { start + result ≤ length words.now + lead_at words.now start }
{
    let lead = lead_of(words, start);
    lead + 1 + slots_of(words, start).max(1)
}
