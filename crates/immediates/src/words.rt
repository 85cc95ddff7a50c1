// What a word is, and the words of values.
ghost use Rattle.std.specs.Prelude.{◌≡◌, ◌%◌, ◌/◌, ◌^◌, ◌<◌, ◌↔◌, ℕ, Some, IsOk, IfOk};
ghost use Rattle.spur_graph.specs.declared.answer.Value.{Value};
ghost use Rattle.spur_graph.specs.declared.answer.Value.TheVariants as value;
ghost use Rattle.spur_graph.specs.Value.{IsValue, int_of, value_of, is_immediate_word};
ghost use Rattle.immediates.specs.Kinds.{kind_of, value_by};

use crate::{Kind, Range};
use object_header::SMALL_INTEGER_TAG;

/// How many tags there are: a word is its tag, and this many times what stands above it.
const TAGS: u64 = 8;

const REFERENCE_TAG: u64 = 0;

const CHARACTER_TAG: u64 = 2;

const SMALL_FLOAT_TAG: u64 = 4;

/// SmallIntegers are less than this, and at least this negated.
const FIRST_LARGE_INTEGER: u128 = 1 << 60;

/// How many codes Characters have.
const CODES: u64 = 1 << 30;

/// The kind of a word: it says which value the word is, whatever values references name.
pub fn kind(word: u64) -> Kind
    ensures kind { result ≡ kind_of word }
    ensures value { (named : ℕ → Value) → value_of named word ≡ value_by result named word }
{
    match word % TAGS {
        REFERENCE_TAG => Kind::Reference,
        SMALL_INTEGER_TAG => Kind::Int,
        CHARACTER_TAG if word / TAGS < CODES => Kind::Char,
        SMALL_FLOAT_TAG => Kind::Float,
        _ => Kind::Bad,
    }
}

/// Whether a word is that of an immediate: a SmallInteger, a Character whose code is below 2^30, or a SmallFloat.
pub fn is_immediate_word(word: u64) -> bool
    ensures { result ≡ is_immediate_word word }
{
    match word % TAGS {
        SMALL_INTEGER_TAG | SMALL_FLOAT_TAG => true,
        CHARACTER_TAG => word / TAGS < CODES,
        _ => false,
    }
}

/// The word of a SmallInteger. Fails outside -2^60 to 2^60 - 1.
pub fn small_int(n: i128) -> Result<u64, Range>
    ensures range { IsOk result ↔ IsValue (value.Int n) }
    ensures word { IfOk result (λ word. (kind_of word ≡ Kind.Int) × (int_of word ≡ n)) }
    ensures value { IfOk result (λ word. (named : ℕ → Value) → value_of named word ≡ Some (value.Int n)) }
    ensures only { (word : ℕ) → word < 2 ^ 64 → kind_of word ≡ Kind.Int → int_of word ≡ n → result ≡ Ok word }
{
    if n < 0 {
        let complement = n.unsigned_abs() - 1;
        if complement >= FIRST_LARGE_INTEGER {
            return Err(Range);
        }
        // A number and its complement, -1 - n, differ in every bit.
        Ok(u64::MAX - (complement as u64 * TAGS + (TAGS - 1 - SMALL_INTEGER_TAG)))
    } else {
        let magnitude = n.unsigned_abs();
        if magnitude >= FIRST_LARGE_INTEGER {
            return Err(Range);
        }
        Ok(magnitude as u64 * TAGS + SMALL_INTEGER_TAG)
    }
}

/// The word of a Character by its code. Fails past 2^30 - 1.
pub fn character(n: u128) -> Result<u64, Range>
    ensures range { IsOk result ↔ n < 2 ^ 30 }
    ensures word { IfOk result (λ word. (kind_of word ≡ Kind.Char) × (word / 8 ≡ n)) }
    ensures value { IfOk result (λ word. (named : ℕ → Value) → value_of named word ≡ Some (value.Char n)) }
    ensures only { (word : ℕ) → kind_of word ≡ Kind.Char → word / 8 ≡ n → result ≡ Ok word }
{
    if n < CODES as u128 {
        Ok(n as u64 * TAGS + CHARACTER_TAG)
    } else {
        Err(Range)
    }
}

/// The word of a SmallFloat, which is the word itself. Fails where its low three bits are not 100.
pub fn float_bits(word: u64) -> Result<u64, Range>
    ensures range { IsOk result ↔ word % 8 ≡ 4 }
    ensures word { IfOk result (λ float. (float ≡ word) × (kind_of float ≡ Kind.Float)) }
    ensures value { IfOk result (λ float. (named : ℕ → Value) → value_of named float ≡ Some (value.Float word)) }
{
    if word % TAGS == SMALL_FLOAT_TAG {
        Ok(word)
    } else {
        Err(Range)
    }
}

/// The number of a SmallInteger's word: its upper 61 bits, signed.
pub fn int_of(word: u64) -> i64
    requires { kind_of word ≡ Kind.Int }
    ensures { result ≡ int_of word }
{
    if word < 1 << 63 {
        (word / TAGS) as i64
    } else {
        -1 - ((u64::MAX - word) / TAGS) as i64
    }
}

/// The code of a Character's word.
pub fn char_of(word: u64) -> u32
    requires { kind_of word ≡ Kind.Char }
    ensures { result ≡ word / 8 }
{
    (word / TAGS) as u32
}
