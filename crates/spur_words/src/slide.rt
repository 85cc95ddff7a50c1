// Runs that move down, word by word.
ghost use Rattle.std.specs.Prelude.{◌≡◌, ◌+◌, ◌<◌, ◌≤◌, ℕ, length, slice_index, slice_set};

/// Moves the run of `len` words at the index `from` down to the index `to`, as [`Region::slide`] does,
/// over words that are not seen as a region. The lowest word goes first, so that the two runs may
/// share words.
///
/// [`Region::slide`]: crate::Region::slide
pub fn slide_run(words: &mut [u64], from: usize, to: usize, len: usize)
    requires down { to ≤ from }
    requires within { from + len ≤ length words.old }
    ensures same_length { length words.new ≡ length words.old }
    ensures moved { (k : ℕ) → k < len
        → slice_index words.new (to + k) ≡ slice_index words.old (from + k) }
    ensures below { (k : ℕ) → k < to → slice_index words.new k ≡ slice_index words.old k }
    ensures above { (k : ℕ) → to + len ≤ k
        → slice_index words.new k ≡ slice_index words.old k }
{
    'words: for i in 0..len {
        copy_word(words, from + i, to + i);
    }
}

/// Copies one word, through a raw pointer.
fn copy_word(words: &mut [u64], from: usize, to: usize)
    requires { (from < length words.old) × (to < length words.old) }
    ensures { words.new ≡ slice_set words.old to (slice_index words.old from) }
{
    let start = words.as_mut_ptr();
    unsafe {
        let word = *start.add(from);
        *start.add(to) = word;
    }
}
