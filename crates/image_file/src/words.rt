// The words of a heap, read into a region.
ghost use Rattle.std.specs.Prelude.{◌≡◌, ◌≤◌, ◌<◌, ◌+◌, ◌*◌, ◌^◌, ℕ, List, length, take, drop, IfOk, IfErr, IfSome, OnOk};
ghost use Rattle.std.specs.List.{flat_map};
ghost use Rattle.spur_graph.specs.ImageFile.{header_bytes};
ghost use Rattle.spur_graph.specs.Segments.{segment_words, total_words};
ghost use Rattle.heap_segments.specs.Rising.{end_place};
ghost use Rattle.image_file.specs.Told.{Tells};
ghost use Rattle.image_file.specs.Errors.{IsFault, ReadCause};
ghost use Rattle.image_file.specs.Held.{HasWords};

use crate::LoadError;
use crate::pieces::{WORD_BYTES, read_piece};
use heap_segments::AddressMap;
use spur_io::Files;
use spur_words::Region;
use std::alloc::{AllocError, Global};

/// Words that are read at a time.
const PIECE_WORDS: usize = 8_192;

/// Reads `count` words of the file from the byte `at` on, piece by piece, to the words of the region from `begin` on.
fn read_run<F: Files>(
    files: &mut F,
    name: &str,
    at: u64,
    piece: &mut [u8],
    region: &mut Region,
    begin: usize,
    count: usize,
) -> Result<(), LoadError>
    requires near { at + 8 * count ≤ 2 ^ 63 }
    requires piece { length piece.old ≡ WORD_BYTES * PIECE_WORDS }
    requires within { begin + count ≤ length region.old }
    requires low { begin + count ≤ 2 ^ 59 }
    ensures read { OnOk result ((file : List ℕ) → Tells (F.told files.old) name.now file → HasWords file at (take count (drop begin region.new))) }
    ensures front { take begin region.new ≡ take begin region.old }
    ensures behind { drop (begin + count) region.new ≡ drop (begin + count) region.old }
    ensures len { length region.new ≡ length region.old }
    ensures fault { IfErr result (λ e. (file : List ℕ) → Tells (F.told files.old) name.now file → at + 8 * count ≤ length file → IsFault e) }
    ensures same { F.told files.new ≡ F.told files.old }
    ensures cause { ReadCause (F.read_count files.old) (F.read_count files.new) result }
    ensures other { F.write_count files.new ≡ F.write_count files.old }
{
    let mut done = 0;
    'pieces: while done < count {
        let some = PIECE_WORDS.min(count - done);
        let from = at + (WORD_BYTES * done) as u64;
        let bytes = &mut piece[..WORD_BYTES * some];
        read_piece(
            files,
            name,
            from,
            bytes,
            region.window_mut(begin + done, some),
        )?;
        done += some;
    }
    Ok(())
}

/// Reads the words of the objects of all segments, one after another, to the front of the region, through the bytes of a piece.
fn read_segments<F: Files>(
    files: &mut F,
    name: &str,
    map: &AddressMap,
    piece: &mut [u8],
    region: &mut Region,
) -> Result<(), LoadError>
    requires room { total_words map.now ≤ length region.old }
    requires piece { length piece.old ≡ WORD_BYTES * PIECE_WORDS }
    ensures words { OnOk result ((file : List ℕ) → Tells (F.told files.old) name.now file → take (total_words map.now) region.new ≡ flat_map (segment_words file) map.now) }
    ensures behind { drop (total_words map.now) region.new ≡ drop (total_words map.now) region.old }
    ensures len { length region.new ≡ length region.old }
    ensures fault { IfErr result (λ e. (file : List ℕ) → Tells (F.told files.old) name.now file → end_place header_bytes map.now ≤ length file → IsFault e) }
    ensures same { F.told files.new ≡ F.told files.old }
    ensures cause { ReadCause (F.read_count files.old) (F.read_count files.new) result }
    ensures other { F.write_count files.new ≡ F.write_count files.old }
{
    'segments: for i in 0..map.len() {
        let (place, begin, count) = (map.place(i), map.begin(i), map.word_count(i));
        read_run(files, name, place, piece, region, begin, count)?;
    }
    Ok(())
}

/// Room for the bytes that are read at a time.
fn new_piece(alloc: Global) -> Result<Vec<u8>, AllocError>
    ensures { IfOk result (λ piece. length piece.items ≡ WORD_BYTES * PIECE_WORDS) }
{
    Vec::from_elem(alloc, 0, WORD_BYTES * PIECE_WORDS)
}

/// Reads the words of the objects of all segments, one after another, to the front of the region. The words of the region behind
/// them stay as they were.
///
/// The words go through a piece of 64 KiB. The error is [`LoadError::ReadFault`] or [`LoadError::Memory`], or
/// [`LoadError::Short`] where the file ends within the segments; then the words at the front of the region are left open.
pub fn read_words<F: Files>(
    alloc: Global,
    files: &mut F,
    name: &str,
    map: &AddressMap,
    region: &mut Region,
) -> Result<(), LoadError>
    requires { total_words map.now ≤ length region.old }
    ensures words { OnOk result (IfSome (F.told files.old) (λ store. take (total_words map.now) region.new ≡ flat_map (segment_words (store name.now)) map.now)) }
    ensures behind { drop (total_words map.now) region.new ≡ drop (total_words map.now) region.old }
    ensures len { length region.new ≡ length region.old }
    ensures refused { IfErr result (λ e. IfSome (F.told files.old) (λ store. end_place header_bytes map.now ≤ length (store name.now) → IsFault e)) }
    ensures same { F.told files.new ≡ F.told files.old }
    ensures cause { ReadCause (F.read_count files.old) (F.read_count files.new) result }
    ensures other { F.write_count files.new ≡ F.write_count files.old }
{
    let Ok(mut piece) = new_piece(alloc) else {
        return Err(LoadError::Memory);
    };
    read_segments(files, name, map, piece.as_mut_slice(), region)
}
