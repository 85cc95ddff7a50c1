// One step of a walk over chunks.
ghost use Rattle.std.specs.Prelude.{◌≡◌, ◌+◌, ◌<◌, ◌≤◌, max, ℕ, length, Ok, IfOk};
ghost use Rattle.spur_graph.specs.Places.{head_at, place};
ghost use Rattle.heap_cells.specs.Rows.{AllRead};

use object_header::{Head, HeadError, read_head};

/// The head of the chunk that begins at the word `at`, in a range that ends at `end`.
pub(crate) fn head_at(words: &[u64], at: usize, end: usize) -> Result<Head, HeadError>
    requires before { at < end }
    requires within { end ≤ length words.now }
    ensures value { result ≡ head_at words.now end at }
    ensures room { IfOk result (λ h. (1 < h.words) × (at + h.words ≤ end)) }
    ensures size { IfOk result (λ h. (h.words ≡ h.lead + 1 + max 1 h.slots) × (h.lead ≤ 1)) }
{
    read_head(&words[at..end])
}

/// The head of the chunk that begins at the word `at`, among words in which no chunk is refused.
pub(crate) fn known_head(words: &[u64], at: usize) -> Head
    requires read { AllRead words.now 0 (length words.now) }
    requires place { (k : ℕ) × (place words.now 0 (length words.now) k ≡ at) }
    requires before { at < length words.now }
    ensures value { head_at words.now (length words.now) at ≡ Ok result }
    ensures room { (1 < result.words) × (at + result.words ≤ length words.now) }
    ensures size { (result.words ≡ result.lead + 1 + max 1 result.slots) × (result.lead ≤ 1) }
{
    match head_at(words, at, words.len()) {
        Ok(head) => head,
        Err(_) => unreachable!(),
    }
}
