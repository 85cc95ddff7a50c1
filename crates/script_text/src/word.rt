// The words of a line: the cut at a space, and the names that words are.
ghost use Rattle.std.specs.Prelude.{◌≡◌, ◌∷◌};
ghost use Rattle.std.specs.Str.{bytes_eq};
ghost use Rattle.std.specs.List.{list_all};
ghost use Rattle.spur_graph.specs.Words.{words_of, name_in, file_in, is_name_byte, is_file_first, is_file_byte, is_handle_name, is_file_name};
ghost use Rattle.script_text.specs.Reading.{Gives, words_after};

use spur_graph::{FileName, HandleName};
use std::str;

/// The first word, and what follows the space behind it.
pub fn cut(bytes: &[u8]) -> (&[u8], Option<&[u8]>)
    ensures { words_of bytes.now ≡ result.0.now ∷ words_after result.1 }
{
    'bytes: for (i, b) in bytes.iter().enumerate() {
        if *b == b' ' {
            let (word, _) = bytes.split_at(i);
            let (_, rest) = bytes.split_at(i + 1);
            return (word, Some(rest));
        }
    }
    (bytes, None)
}

/// Whether a word is this text.
pub fn is(word: &[u8], text: &str) -> bool
    ensures { result ≡ bytes_eq word.now text.now }
{
    word == text.as_bytes()
}

fn is_name_byte(b: u8) -> bool
    ensures { result ≡ is_name_byte b }
{
    b.is_ascii_lowercase() || b.is_ascii_digit() || b == b'_'
}

fn is_file_first(b: u8) -> bool
    ensures { result ≡ is_file_first b }
{
    b.is_ascii_lowercase() || b.is_ascii_uppercase() || b.is_ascii_digit()
}

fn is_file_byte(b: u8) -> bool
    ensures { result ≡ is_file_byte b }
{
    is_file_first(b) || b == b'.' || b == b'_' || b == b'-'
}

fn all_name_bytes(word: &[u8]) -> bool
    ensures { result ≡ list_all is_name_byte word.now }
{
    word.iter().all(|b| is_name_byte(*b))
}

fn all_file_bytes(word: &[u8]) -> bool
    ensures { result ≡ list_all is_file_byte word.now }
{
    word.iter().all(|b| is_file_byte(*b))
}

fn is_handle_name(word: &[u8]) -> bool
    ensures { result ≡ is_handle_name word.now }
{
    word.len() >= 1 && word.len() <= 16 && word[0].is_ascii_lowercase() && all_name_bytes(word)
}

fn is_file_name(word: &[u8]) -> bool
    ensures { result ≡ is_file_name word.now }
{
    word.len() >= 1 && word.len() <= 64 && is_file_first(word[0]) && all_file_bytes(word)
}

/// The handle that a word names.
#[tactic(auto, unfolding(spur_graph::specs::Words::name_in))]
pub fn name_of(word: &[u8]) -> Option<HandleName>
    ensures { Gives (λ name. name.bytes) result (name_in word.now) }
{
    if !is_handle_name(word) {
        return None;
    }
    // each byte is a letter, a digit or `_`
    let text = unsafe { str::from_utf8_unchecked(word) };
    HandleName::from(text).ok()
}

/// The file that a word names.
#[tactic(auto, unfolding(spur_graph::specs::Words::file_in))]
pub fn file_of(word: &[u8]) -> Option<FileName>
    ensures { Gives (λ name. name.bytes) result (file_in word.now) }
{
    if !is_file_name(word) {
        return None;
    }
    // each byte is a letter, a digit, `.`, `_` or `-`
    let text = unsafe { str::from_utf8_unchecked(word) };
    FileName::from(text).ok()
}
