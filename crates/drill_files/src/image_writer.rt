// The base image, written piece by piece.
ghost use Rattle.std.specs.Prelude.{◌≡◌, ◌≤◌, ◌<◌, ◌+◌, ◌^◌, OnOk, OnErr};
ghost use Rattle.spur_io.specs.Store.{Changes};
ghost use Rattle.spur_io.specs.Causes.{FileCause};
ghost use Rattle.spur_graph.specs.BaseImage.{base_image};
ghost use Rattle.drill_files.specs.Written.{IsWritten, IsCutShort, word_bytes, image_front};

use crate::base_header::base_header;
use crate::base_words::{WORD_COUNT, base_word};
use crate::puts::put64;
use arrayvec::ArrayVec;
use spur_io::{FileFault, Files};

/// Words that are written at a time.
const PIECE_WORDS: usize = 512;

/// Their bytes.
const PIECE_BYTES: usize = 8 * PIECE_WORDS;

/// How many words the heap has. Behind a call, so that no proof counts up to that number.
#[tactic(auto, unfolding(spur_graph::specs::BaseImage::base_image, spur_graph::specs::BaseImage::base_words, crate::specs::Written::word_bytes, crate::specs::Written::image_front))]
fn word_count() -> usize
    ensures whole { base_image ≡ image_front result }
    ensures small { result < 2 ^ 32 }
{
    WORD_COUNT
}

/// The bytes of `count` words, from the word `from` on.
#[tactic(auto, using(crate::proofs::Pieces::word_bytes_none, crate::proofs::Pieces::word_bytes_more))]
fn words_piece(from: usize, count: usize) -> ArrayVec<u8, PIECE_BYTES>
    requires fits { count ≤ PIECE_WORDS }
    requires near { from + count < 2 ^ 32 }
    ensures { result.items ≡ word_bytes from count }
{
    let mut piece = ArrayVec::new();
    'words: for done in 0..count {
        put64(&mut piece, base_word(from + done));
    }
    piece
}

/// Writes the base image under this name: 50,416 bytes, the header first and then the heap in pieces.
///
/// It takes no memory of its own, so `Memory` comes only from the store. After a refusal the file may be empty or a
/// part of an image.
pub fn write_base_image<F: Files>(files: &mut F, name: &str) -> Result<(), FileFault>
    ensures written { OnOk result (Changes (F.told files.old) (F.told files.new) name.now IsWritten) }
    ensures refused { OnErr result (Changes (F.told files.old) (F.told files.new) name.now IsCutShort) }
    ensures cause { FileCause (F.write_count files.old) (F.write_count files.new) result }
    ensures other { F.read_count files.new ≡ F.read_count files.old }
{
    files.begin(name)?;
    files.append(name, base_header().as_slice())?;
    let end = word_count();
    let mut written = 0;
    'pieces: while written < end {
        let count = PIECE_WORDS.min(end - written);
        files.append(name, words_piece(written, count).as_slice())?;
        written += count;
    }
    Ok(())
}
