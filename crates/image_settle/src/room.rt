// The room behind the settled words.
ghost use Rattle.std.specs.Prelude.{◌≡◌, ◌≢◌, ◌≤◌, ◌+◌, ◌^◌, length, take};
ghost use Rattle.spur_graph.specs.Cells.{Store};
ghost use Rattle.image_settle.specs.Rooms.{IsRoom, IsAlone, HasRoom};

use object_header::{LONGEST_SHORT, OVERFLOW_COUNT, free_header, overflow_word};
use spur_words::Region;

/// Writes the head words of a free chunk of `room` words.
fn put_chunk(region: &mut Region, at: usize, room: usize)
    requires room { 2 ≤ room }
    requires end { at + room ≤ length region.old }
    requires small { length region.old ≤ 2 ^ 27 }
    ensures same_len { length region.new ≡ length region.old }
    ensures before { take at region.new ≡ take at region.old }
    ensures room { IsRoom region.new at room }
{
    if room <= LONGEST_SHORT {
        region.put(at, free_header(room as u64 - 1).0);
    } else {
        region.put(at, overflow_word(room as u64 - 2));
        region.put(at + 1, free_header(OVERFLOW_COUNT).0);
    }
}

/// Makes the `room` words behind the first `at` a free chunk, where there are any. The first `at` words stay, and what stands
/// in them; the words behind the room are none of it.
pub fn put_room(region: &mut Region, at: usize, room: usize)
    requires room { room ≢ 1 }
    requires end { at + room ≤ length region.old }
    requires small { length region.old ≤ 2 ^ 27 }
    ensures same_len { length region.new ≡ length region.old }
    ensures before { take at region.new ≡ take at region.old }
    ensures heap { (h : Store) → IsAlone h (take at region.old) → HasRoom h (take at region.old) (take (at + room) region.new) room }
{
    if room != 0 {
        put_chunk(region, at, room);
    }
}
