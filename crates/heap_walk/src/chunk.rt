ghost use Rattle.std.specs.Prelude.{◌≡◌, ◌+◌, ◌<◌, ◌≤◌, length, IfOk, List, slice_index, slice_range};
ghost use Rattle.object_header.specs.Chunks.{chunk_of, IsChunk, Cuts};
ghost use Rattle.object_header.specs.Head.{head_of, class_of};
ghost use Rattle.heap_walk.specs.Chunks.{kind_of, chunk_read, IsPlacedAs, IsFirstOf};

use object_header::{FORWARDER_CLASS, FREE_CLASS, HeadError, Header, read_head};
use spur_words::Region;

/// What a chunk is, by its class index.
#[derive(Clone, Copy, Debug, PartialEq, Eq)]
pub enum ChunkKind {
    /// Words that no object has.
    Free,
    /// An object.
    Object,
    /// What an object leaves that moved or was forwarded: its first slot names what it stands for.
    Forwarder,
}

impl ChunkKind {
    ghost use Rattle.heap_walk.specs.Chunks.{kind_of};

    fn of_class(class: u64) -> ChunkKind
        ensures { result ≡ kind_of class }
    {
        match class {
            FREE_CLASS => ChunkKind::Free,
            FORWARDER_CLASS => ChunkKind::Forwarder,
            _ => ChunkKind::Object,
        }
    }
}

/// A run of words with one header.
#[derive(Clone, Copy, Debug, PartialEq, Eq)]
pub struct Chunk {
    /// The index of its first word, which is the overflow word if there is one.
    pub at: usize,
    /// The index of its header word.
    pub start: usize,
    /// Its size in words, with the head words.
    pub words: usize,
    /// What it is.
    pub kind: ChunkKind,
}

/// The chunk whose first word is at the index `at`, in a range that ends at `end`. The errors are
/// those of [`read_head`] on the words from `at` to `end`.
///
/// On a range that is cut into chunks the answer is the first of them, and the others cut the rest:
/// so a walk by [`Chunk::words`] that meets no error meets these chunks, and ends exactly at `end`.
#[tactic(auto, using(crate::proofs::Chunks::read_stands, crate::proofs::Chunks::read_first))]
pub fn next_chunk(region: &Region, at: usize, end: usize) -> Result<Chunk, HeadError>
    requires before { at < end }
    requires within { end ≤ length region.now }
    ensures value { result ≡ chunk_read at (head_of (slice_range region.now at end)) }
    ensures chunk { IfOk result (λ _. IsChunk region.now at (chunk_of at (slice_index region.now at))) }
    ensures places { IfOk result (λ c. IsPlacedAs c (chunk_of at (slice_index region.now at))) }
    ensures row { IfOk result (λ c. (cs : List _) → Cuts region.now at end cs
        → IsFirstOf region.now end cs c) }

    // What a walk asks of a chunk, so that its proof need not open the definition.
    ensures place { IfOk result (λ c. (c.at ≡ at) × (at + c.words ≤ end)) }
    ensures start { IfOk result (λ c. (at ≤ c.start) × (c.start + 1 < at + c.words)) }
    ensures kind { IfOk result (λ c. c.kind ≡ kind_of (class_of (slice_index region.now c.start))) }
{
    let head = match read_head(region.window(at, end - at)) {
        Ok(head) => head,
        Err(error) => return Err(error),
    };
    Ok(Chunk {
        at,
        start: at + head.lead,
        words: head.words,
        kind: ChunkKind::of_class(Header(head.header).class()),
    })
}
