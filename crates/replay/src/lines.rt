// The lines of a script that is read in pieces.
ghost use Rattle.std.specs.Prelude.{◌≡◌, ◌==◌, [], ◌∷◌, ◌++◌, length, position, take, false, IfSome, IfNone};
ghost use Rattle.spur_graph.specs.Lines.{has_line_feed};

use arrayvec::ArrayVec;
use memchr::memchr;
use std::marker::Model;

/// Bytes that are kept of a line: one more than the longest line has, so that what is kept of a longer one is too long as well.
const KEPT_BYTES: usize = 1_025;

/// Where the first line feed stands.
fn line_feed_of(bytes: &[u8]) -> Option<usize>
    ensures { result ≡ position (λ b. b == 10) bytes.now }
{
    memchr(b'\n', bytes)
}

/// The first line without its line feed, and what follows it; none where no line is ended.
pub(crate) fn cut_line(bytes: &[u8]) -> Option<(&[u8], &[u8])>
    ensures whole { IfSome result (λ cut. bytes.now ≡ cut.0.now ++ 10 ∷ cut.1.now) }
    ensures first { IfSome result (λ cut. has_line_feed cut.0.now ≡ false) }
    ensures none { IfNone result (has_line_feed bytes.now ≡ false) }
{
    let end = line_feed_of(bytes)?;
    let (line, behind) = bytes.split_at(end);
    let (_, rest) = behind.split_at(1);
    Some((line, rest))
}

/// The line at the end of what was read, whose line feed was not read. A contract sees the bytes that are kept of it.
#[derive(Drop)]
pub(crate) struct OpenLine {
    kept: ArrayVec<u8, KEPT_BYTES>,
}

impl Model for OpenLine {
    ghost use Rattle.std.specs.Prelude.{ℕ, List};

    ghost Value = { List ℕ };

    ghost view = { λ o. o.kept.items };
}

impl OpenLine {
    pub(crate) fn new() -> OpenLine
        ensures { result ≡ [] }
    {
        OpenLine {
            kept: ArrayVec::new(),
        }
    }

    pub(crate) fn is_empty(&self) -> bool
        ensures { result ≡ (length self.now == 0) }
    {
        self.kept.is_empty()
    }

    pub(crate) fn bytes(&self) -> &[u8]
        ensures { result.now ≡ self.now }
    {
        self.kept.as_slice()
    }

    /// Keeps further bytes of the line, as far as there is room.
    pub(crate) fn extend(&mut self, bytes: &[u8])
        ensures { self.new ≡ take KEPT_BYTES (self.old ++ bytes.now) }
    {
        let room = self.kept.remaining_capacity();
        let (front, _) = bytes.split_at(room.min(bytes.len()));
        let _fits = self.kept.try_extend_from_slice(front);
    }

    pub(crate) fn clear(&mut self)
        ensures { self.new ≡ [] }
    {
        self.kept.clear();
    }
}
