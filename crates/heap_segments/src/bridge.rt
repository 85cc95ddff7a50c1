// The bridge at the end of a segment.
ghost use Rattle.std.specs.Prelude.{◌≡◌, ◌≤◌, ◌<◌, ◌^◌};
ghost use Rattle.spur_graph.specs.Segments.{gap_of, greatest_end};
ghost use Rattle.heap_segments.specs.Bridges.{told};

use object_header::{CountField, OVERFLOW_COUNT, OverflowSlotsField};

/// What is wrong with the segments of an image.
#[derive(Clone, Copy, Debug, PartialEq, Eq)]
pub enum SegmentFault {
    /// A segment has a size that it can't have, or there are too many segments.
    Size,
    /// The last segment has ended, and so many bytes of the heap are left.
    End(u64),
}

/// What follows a segment.
#[derive(Clone, Copy, Debug, PartialEq, Eq)]
pub enum Next {
    /// Nothing: it is the last one.
    Last,
    /// A segment at this address, of so many bytes with its bridge.
    Segment { address: u64, size: u64 },
}

/// The words of the gap between a segment and the next one.
fn gap(first: u64) -> u64
    ensures value { result ≡ gap_of first }
    ensures small { result < 2 ^ 56 }
{
    if CountField::get(first) == OVERFLOW_COUNT {
        OverflowSlotsField::get(first)
    } else {
        0
    }
}

/// Reads the two words of a bridge. `left` is the number of bytes of the heap behind it, and `end` the address behind it.
/// The error is [`SegmentFault::End`], where no segment follows and bytes are left.
pub fn after(first: u64, second: u64, left: u64, end: u64) -> Result<Next, SegmentFault>
    requires { end ≤ greatest_end }
    ensures { result ≡ told first second left end }
{
    if second == 0 {
        if left == 0 {
            return Ok(Next::Last);
        }
        return Err(SegmentFault::End(left));
    }
    Ok(Next::Segment {
        address: end + 8 * gap(first),
        size: second,
    })
}
