// Words of a file, read through the bytes of a piece.
ghost use Rattle.std.specs.Prelude.{◌≡◌, ◌≤◌, ◌<◌, ◌+◌, ◌*◌, ◌^◌, ℕ, List, length, IfOk, IfErr, OnOk};
ghost use Rattle.std.specs.Int.{w64, from_le_bytes};
ghost use Rattle.spur_graph.specs.Bytes.{words_in, number};
ghost use Rattle.image_file.specs.Told.{Tells};
ghost use Rattle.image_file.specs.Errors.{IsFault, ReadCause};
ghost use Rattle.image_file.specs.Held.{HasWords};

use crate::LoadError;
use spur_io::{Files, read_full};

/// Bytes of a word.
pub(crate) const WORD_BYTES: usize = 8;

/// Words of the bridge at the end of a segment.
pub(crate) const BRIDGE_WORDS: usize = 2;

fn number64(bytes: &[u8]) -> u64
    requires { length bytes.now ≡ 8 }
    ensures { result ≡ from_le_bytes w64 bytes.now }
{
    match bytes {
        [a, b, c, d, e, f, g, h] => u64::from_le_bytes([*a, *b, *c, *d, *e, *f, *g, *h]),
        _ => 0,
    }
}

/// Writes the words that the bytes are.
fn copy_words(words: &mut [u64], bytes: &[u8])
    requires { length bytes.now ≡ 8 * length words.old }
    ensures { words.new ≡ words_in bytes.now }
{
    let mut rest = bytes;
    'words: for word in words.iter_mut() {
        let (front, behind) = rest.split_at(WORD_BYTES);
        *word = number64(front);
        rest = behind;
    }
}

/// Reads words of the file from the byte `at` on, through the bytes of a piece. The error is [`LoadError::Short`] where the file
/// ends before they do.
pub(crate) fn read_piece<F: Files>(
    files: &mut F,
    name: &str,
    at: u64,
    piece: &mut [u8],
    words: &mut [u64],
) -> Result<(), LoadError>
    requires near { at + length piece.old < 2 ^ 64 }
    requires fit { length piece.old ≡ 8 * length words.old }
    ensures read { OnOk result ((file : List ℕ) → Tells (F.told files.old) name.now file → HasWords file at words.new) }
    ensures fault { IfErr result (λ e. (file : List ℕ) → Tells (F.told files.old) name.now file → at + length piece.old ≤ length file → IsFault e) }
    ensures same { F.told files.new ≡ F.told files.old }
    ensures cause { ReadCause (F.read_count files.old) (F.read_count files.new) result }
    ensures other { F.write_count files.new ≡ F.write_count files.old }
{
    let count = read_full(files, name, at, piece)?;
    if count < piece.len() {
        return Err(LoadError::Short(at + count as u64));
    }
    copy_words(words, piece);
    Ok(())
}

/// The two words of the bridge at the byte `at`. The error is [`LoadError::Short`] where the file ends before them.
pub(crate) fn read_bridge<F: Files>(
    files: &mut F,
    name: &str,
    at: u64,
) -> Result<(u64, u64), LoadError>
    requires near { at + 16 < 2 ^ 64 }
    ensures first { IfOk result (λ bridge. (file : List ℕ) → Tells (F.told files.old) name.now file → bridge.0 ≡ number w64 at file) }
    ensures second { IfOk result (λ bridge. (file : List ℕ) → Tells (F.told files.old) name.now file → bridge.1 ≡ number w64 (at + 8) file) }
    ensures fault { IfErr result (λ e. (file : List ℕ) → Tells (F.told files.old) name.now file → at + 16 ≤ length file → IsFault e) }
    ensures same { F.told files.new ≡ F.told files.old }
    ensures cause { ReadCause (F.read_count files.old) (F.read_count files.new) result }
    ensures other { F.write_count files.new ≡ F.write_count files.old }
{
    let mut piece = [0; WORD_BYTES * BRIDGE_WORDS];
    let mut words = [0; BRIDGE_WORDS];
    read_piece(files, name, at, &mut piece, &mut words)?;
    let [first, second] = words;
    Ok((first, second))
}
