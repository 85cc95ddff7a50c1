ghost use Rattle.std.specs.Prelude.{◌≡◌, ◌+◌, ◌<◌, ◌≤◌, ℕ, length, slice_index, slice_set};
ghost use Rattle.spur_words.specs.Runs.{IsApart};

use crate::region::Region;

impl Region {
    /// The header word at the index `at`.
    pub fn head_mut(&mut self, at: usize) -> HeadMut<'_>
        requires { at < length self.old }
        ensures same_reference { result.region.ghost_name ≡ self.entry.ghost_name }
        ensures region { result.region.now ≡ self.old }
        ensures at { result.at ≡ at }
    {
        HeadMut { region: self, at }
    }

    /// The `len` slots from the index `at` on.
    pub fn slots_mut(&mut self, at: usize, len: usize) -> SlotsMut<'_>
        requires { at + len ≤ length self.old }
        ensures same_reference { result.region.ghost_name ≡ self.entry.ghost_name }
        ensures region { result.region.now ≡ self.old }
        ensures run { (result.at ≡ at) × (result.len ≡ len) }
    {
        SlotsMut {
            region: self,
            at,
            len,
        }
    }

    /// The `len` words of the free chunk whose first word is at the index `at`.
    pub fn free_mut(&mut self, at: usize, len: usize) -> FreeMut<'_>
        requires { at + len ≤ length self.old }
        ensures same_reference { result.region.ghost_name ≡ self.entry.ghost_name }
        ensures region { result.region.now ≡ self.old }
        ensures run { (result.at ≡ at) × (result.len ≡ len) }
    {
        FreeMut {
            region: self,
            at,
            len,
        }
    }

    /// The bridge whose first word is at the index `at`.
    pub fn bridge_mut(&mut self, at: usize) -> BridgeMut<'_>
        requires { at + 2 ≤ length self.old }
        ensures same_reference { result.region.ghost_name ≡ self.entry.ghost_name }
        ensures region { result.region.now ≡ self.old }
        ensures at { result.at ≡ at }
    {
        BridgeMut { region: self, at }
    }

    /// Two runs that share no word: `la` words from the index `a` on, and `lb` words from the
    /// index `b` on.
    pub fn pair_mut(&mut self, a: usize, la: usize, b: usize, lb: usize) -> Pair<'_>
        requires first { a + la ≤ length self.old }
        requires second { b + lb ≤ length self.old }
        requires apart { IsApart a la b lb }
        ensures same_reference { result.region.ghost_name ≡ self.entry.ghost_name }
        ensures region { result.region.now ≡ self.old }
        ensures first { (result.first_at ≡ a) × (result.first_len ≡ la) }
        ensures second { (result.second_at ≡ b) × (result.second_len ≡ lb) }
    {
        Pair {
            region: self,
            first_at: a,
            first_len: la,
            second_at: b,
            second_len: lb,
        }
    }
}

/// The header word of a chunk, for writing.
#[derive(Drop)]
pub struct HeadMut<'a> {
    region: &'a mut Region,
    at: usize,
    ghost within: { at < length region.now },
}

impl<'a> HeadMut<'a> {
    /// The word `i` of the view.
    pub fn get(&self, i: usize) -> u64
        requires { i < 1 }
        ensures { result ≡ slice_index self.now.region.now (self.now.at + i) }
    {
        self.region.get(self.at + i)
    }

    /// Writes the word `i` of the view, and no other word of the region.
    pub fn put(&mut self, i: usize, word: u64)
        requires { i < 1 }
        ensures same_reference { self.new.region.ghost_name ≡ self.old.region.ghost_name }
        ensures written { self.new.region.now
            ≡ slice_set self.old.region.now (self.old.at + i) word }
        ensures same_place { self.new.at ≡ self.old.at }
    {
        self.region.put(self.at + i, word);
    }
}

/// The slots of an object, for writing.
#[derive(Drop)]
pub struct SlotsMut<'a> {
    region: &'a mut Region,
    at: usize,
    len: usize,
    ghost within: { at + len ≤ length region.now },
}

impl<'a> SlotsMut<'a> {
    /// The word `i` of the view.
    pub fn get(&self, i: usize) -> u64
        requires { i < self.now.len }
        ensures { result ≡ slice_index self.now.region.now (self.now.at + i) }
    {
        self.region.get_from(self.at, i)
    }

    /// Writes the word `i` of the view, and no other word of the region.
    pub fn put(&mut self, i: usize, word: u64)
        requires { i < self.old.len }
        ensures same_reference { self.new.region.ghost_name ≡ self.old.region.ghost_name }
        ensures written { self.new.region.now
            ≡ slice_set self.old.region.now (self.old.at + i) word }
        ensures same_run { (self.new.at ≡ self.old.at) × (self.new.len ≡ self.old.len) }
    {
        self.region.put_from(self.at, i, word);
    }
}

/// The words of a free chunk, for writing.
#[derive(Drop)]
pub struct FreeMut<'a> {
    region: &'a mut Region,
    at: usize,
    len: usize,
    ghost within: { at + len ≤ length region.now },
}

impl<'a> FreeMut<'a> {
    /// The word `i` of the view.
    pub fn get(&self, i: usize) -> u64
        requires { i < self.now.len }
        ensures { result ≡ slice_index self.now.region.now (self.now.at + i) }
    {
        self.region.get_from(self.at, i)
    }

    /// Writes the word `i` of the view, and no other word of the region.
    pub fn put(&mut self, i: usize, word: u64)
        requires { i < self.old.len }
        ensures same_reference { self.new.region.ghost_name ≡ self.old.region.ghost_name }
        ensures written { self.new.region.now
            ≡ slice_set self.old.region.now (self.old.at + i) word }
        ensures same_run { (self.new.at ≡ self.old.at) × (self.new.len ≡ self.old.len) }
    {
        self.region.put_from(self.at, i, word);
    }
}

/// The two words of a bridge, which ends a segment, for writing.
#[derive(Drop)]
pub struct BridgeMut<'a> {
    region: &'a mut Region,
    at: usize,
    ghost within: { at + 2 ≤ length region.now },
}

impl<'a> BridgeMut<'a> {
    /// The word `i` of the view.
    pub fn get(&self, i: usize) -> u64
        requires { i < 2 }
        ensures { result ≡ slice_index self.now.region.now (self.now.at + i) }
    {
        self.region.get_from(self.at, i)
    }

    /// Writes the word `i` of the view, and no other word of the region.
    pub fn put(&mut self, i: usize, word: u64)
        requires { i < 2 }
        ensures same_reference { self.new.region.ghost_name ≡ self.old.region.ghost_name }
        ensures written { self.new.region.now
            ≡ slice_set self.old.region.now (self.old.at + i) word }
        ensures same_place { self.new.at ≡ self.old.at }
    {
        self.region.put_from(self.at, i, word);
    }
}

/// Two runs of a region that share no word, both for writing.
#[derive(Drop)]
pub struct Pair<'a> {
    region: &'a mut Region,
    first_at: usize,
    first_len: usize,
    second_at: usize,
    second_len: usize,
    ghost first_within: { first_at + first_len ≤ length region.now },
    ghost second_within: { second_at + second_len ≤ length region.now },
    ghost apart: { IsApart first_at first_len second_at second_len },
}

impl<'a> Pair<'a> {
    /// The word `i` of the first run.
    pub fn get_first(&self, i: usize) -> u64
        requires { i < self.now.first_len }
        ensures { result ≡ slice_index self.now.region.now (self.now.first_at + i) }
    {
        self.region.get_from(self.first_at, i)
    }

    /// Writes the word `i` of the first run, and no other word of the region.
    pub fn put_first(&mut self, i: usize, word: u64)
        requires { i < self.old.first_len }
        ensures same_reference { self.new.region.ghost_name ≡ self.old.region.ghost_name }
        ensures written { self.new.region.now
            ≡ slice_set self.old.region.now (self.old.first_at + i) word }
        ensures second_kept { (k : ℕ) → k < self.old.second_len
            → slice_index self.new.region.now (self.old.second_at + k)
            ≡ slice_index self.old.region.now (self.old.second_at + k) }
        ensures same_first { (self.new.first_at ≡ self.old.first_at)
            × (self.new.first_len ≡ self.old.first_len) }
        ensures same_second { (self.new.second_at ≡ self.old.second_at)
            × (self.new.second_len ≡ self.old.second_len) }
    {
        self.region.put_from(self.first_at, i, word);
    }

    /// The word `i` of the second run.
    pub fn get_second(&self, i: usize) -> u64
        requires { i < self.now.second_len }
        ensures { result ≡ slice_index self.now.region.now (self.now.second_at + i) }
    {
        self.region.get_from(self.second_at, i)
    }

    /// Writes the word `i` of the second run, and no other word of the region.
    pub fn put_second(&mut self, i: usize, word: u64)
        requires { i < self.old.second_len }
        ensures same_reference { self.new.region.ghost_name ≡ self.old.region.ghost_name }
        ensures written { self.new.region.now
            ≡ slice_set self.old.region.now (self.old.second_at + i) word }
        ensures first_kept { (k : ℕ) → k < self.old.first_len
            → slice_index self.new.region.now (self.old.first_at + k)
            ≡ slice_index self.old.region.now (self.old.first_at + k) }
        ensures same_first { (self.new.first_at ≡ self.old.first_at)
            × (self.new.first_len ≡ self.old.first_len) }
        ensures same_second { (self.new.second_at ≡ self.old.second_at)
            × (self.new.second_len ≡ self.old.second_len) }
    {
        self.region.put_from(self.second_at, i, word);
    }
}
