// A heap, saved.
ghost use Rattle.std.specs.Prelude.{◌≡◌, ◌↔◌, IsSome, OnOk, OnErr};
ghost use Rattle.spur_io.specs.Store.{Changes};
ghost use Rattle.spur_io.specs.Causes.{FileCause};
ghost use Rattle.spur_graph.specs.Heaps.{IsWhole};
ghost use Rattle.spur_heap.specs.Parts.{view_of};
ghost use Rattle.spur_graph.specs.Denotes.{Denotes};
ghost use Rattle.image_save.specs.Saved.{saved_text, IsSaved, IsCutShort};
ghost use Rattle.image_save.specs.Denotes.{bare_graph};

use crate::cursor::before;
use crate::image::{BRIDGE_WORDS, header_bytes};
use crate::places::places_of;
use crate::words::{PIECE_WORDS, words_piece};
use spur_graph::words_fit;
use spur_heap::{Heap, HeapParts};
use spur_io::{FileFault, Files};

/// Writes the parts of a heap: the header first, and then its words in pieces of 4,096 bytes, the last one at most that.
fn save_parts<F: Files>(parts: &HeapParts, files: &mut F, name: &str) -> Result<(), FileFault>
    requires { IsWhole (view_of parts.now) }
    ensures saved { OnOk result (Changes (F.told files.old) (F.told files.new) name.now (IsSaved (view_of parts.now))) }
    ensures cut { OnErr result (Changes (F.told files.old) (F.told files.new) name.now (IsCutShort (view_of parts.now))) }
    ensures reads { F.read_count files.new ≡ F.read_count files.old }
    ensures cause { FileCause (F.write_count files.old) (F.write_count files.new) result }
{
    let places = places_of(parts);
    files.begin(name)?;
    files.append(name, &header_bytes(parts, &places))?;
    let end = places.words + BRIDGE_WORDS;
    let mut cursor = before();
    let mut done = 0;
    'pieces: while done < end {
        let count = PIECE_WORDS.min(end - done);
        let piece = words_piece(parts, &places, &mut cursor, done, count);
        files.append(name, piece.as_slice())?;
        done += count;
    }
    Ok(())
}

/// Saves the heap under this name, as an image of one segment: 128 bytes of the header, 8 for each word of a chunk, and 16 of the bridge.
///
/// The file is begun anew and then appended to: first the header, then the words in pieces of 4,096 bytes, of which the last may be shorter. That is this
/// project's choice. A call that the store refuses ends the save, and its fault is the answer. The file is then as before or a part of the image, perhaps empty.
/// No memory is taken, so that `Memory` comes from the store alone. A word is written as Spur's 64-bit image format has it: a reference is the address of a
/// header, the base of the heap's image plus 8 times the header's place in the file.
#[tactic(auto, using(spur_io::proofs::Changes::tells_anyway))]
pub fn save<F: Files>(heap: &Heap, files: &mut F, name: &str) -> Result<(), FileFault>
    ensures saved { OnOk result (Changes (F.told files.old) (F.told files.new) name.now (IsSaved heap.now)) }
    ensures cut { OnErr result (Changes (F.told files.old) (F.told files.new) name.now (IsCutShort heap.now)) }
    ensures told { IsSome (F.told files.new) ↔ IsSome (F.told files.old) }
    ensures denotes { Denotes (saved_text heap.now) (bare_graph heap.now) }
    ensures reads { F.read_count files.new ≡ F.read_count files.old }
    ensures cause { FileCause (F.write_count files.old) (F.write_count files.new) result }
{
    let parts = &heap.parts;
    words_fit(parts.region.as_slice());
    save_parts(parts, files, name)
}
