// Files in memory, which tell their bytes and fail where a test lists it.
ghost use Rattle.std.specs.Prelude.{◌≡◌, ◌≢◌, ◌↔◌, ◌<◌, ◌≤◌, ◌-◌, ℕ, List, [], ◌∷◌, ◌++◌, length, drop, min, Some, IfOk, OnOk, OnErr, Contains};
ghost use Rattle.spur_io.specs.Store.{Gives, Reads, ChangesOnly, Begins, Appends};
ghost use Rattle.spur_io.specs.Causes.{FileCause};

use crate::listed_calls::ListedCalls;
use crate::stored_files::StoredFiles;
use crate::{FileFault, Files, NoMemory};
use std::alloc::Global;

/// The calls of a store that a test can make fail.
#[derive(Clone, Copy, Debug, PartialEq, Eq)]
pub enum CallKind {
    Read,
    Begin,
    Append,
}

/// Files in memory.
///
/// A call answers `Failed` exactly where its number is listed, and then it changes no file. After want of memory
/// too each file is as before.
#[derive(Drop)]
pub struct MemoryFiles {
    files: StoredFiles,
    listed_reads: ListedCalls,
    listed_begins: ListedCalls,
    listed_appends: ListedCalls,
    read_limit: usize,
    read_faults: u64,
    write_faults: u64,
    ghost some_at_a_time: { 0 < read_limit },
}

impl MemoryFiles {
    ghost use Rattle.spur_io.specs.Memory.{file_store, listed, with_listed};

    /// No files, no listed call, and reads of any length.
    pub fn new(alloc: Global) -> Result<MemoryFiles, NoMemory>
        ensures { IfOk result (λ s. file_store s ≡ record { files = λ _. []; listed_reads = []; listed_begins = []; listed_appends = []; read_limit = usize.MAX; read_faults = 0; write_faults = 0 }) }
    {
        Ok(MemoryFiles {
            files: StoredFiles::new(alloc),
            listed_reads: ListedCalls::new(alloc),
            listed_begins: ListedCalls::new(alloc),
            listed_appends: ListedCalls::new(alloc),
            read_limit: usize::MAX,
            read_faults: 0,
            write_faults: 0,
        })
    }

    /// Lists a call of this kind that is to fail, besides those that are listed already. The number counts from 1
    /// the calls of that kind that come after this one, so 0 is the number of none.
    pub fn fail_calls(
        &mut self,
        _alloc: Global,
        kind: CallKind,
        number: u64,
    ) -> Result<(), NoMemory>
        ensures ok { OnOk result (file_store self.new ≡ with_listed kind (listed kind (file_store self.old) ++ number ∷ []) (file_store self.old)) }
        ensures err { OnErr result (file_store self.new ≡ file_store self.old) }
    {
        match kind {
            CallKind::Read => self.listed_reads.list(number)?,
            CallKind::Begin => self.listed_begins.list(number)?,
            CallKind::Append => self.listed_appends.list(number)?,
        }
        Ok(())
    }

    /// Lets each later read give at most `n` bytes.
    pub fn limit_reads(&mut self, n: usize)
        requires { 0 < n }
        ensures { file_store self.new ≡ record (file_store self.old) { read_limit = n } }
    {
        self.read_limit = n;
    }
}

// As many bytes of the file at `at` as there are, as fit and as a read may give.
fn give(file: &[u8], at: u64, limit: usize, into: &mut [u8]) -> usize
    requires fits { 0 < length into.old }
    requires some_at_a_time { 0 < limit }
    ensures count { result ≡ min (min (length into.new) limit) (length file.now - at) }
    ensures given { Gives file.now at into.new result }
    ensures rest { drop result into.new ≡ drop result into.old }
{
    if at >= file.len() as u64 {
        return 0;
    }
    let at = at as usize;
    let count = into.len().min(limit).min(file.len() - at);
    into[..count].copy_from_slice(&file[at..at + count]);
    count
}

impl Files for MemoryFiles {
    ghost use Rattle.spur_io.specs.Memory.{file_store, after_read, after_change};

    ghost told = { λ s. Some (file_store s).files };

    ghost read_count = { λ s. s.read_faults };

    ghost write_count = { λ s. s.write_faults };

    /// Exactly as many bytes as there are, as fit and as the limit lets. `into` is as before behind them.
    fn read_at(&mut self, name: &str, at: u64, into: &mut [u8]) -> Result<usize, FileFault>
        requires { 0 < length into.old }

        // what each store of files does
        ensures bound { IfOk result (λ n. n ≤ length into.new) }
        ensures bytes { Reads (Some (file_store self.old).files) name.now at into.new result }
        ensures same { (file_store self.new).files ≡ (file_store self.old).files }
        ensures cause { FileCause (file_store self.old).read_faults (file_store self.new).read_faults result }
        ensures other { (file_store self.new).write_faults ≡ (file_store self.old).write_faults }

        // when a read fails, how much another gives, and what either leaves
        ensures listed { (result ≡ Err FileFault.Failed) ↔ Contains (file_store self.old).listed_reads 1 }
        ensures memory { result ≢ Err FileFault.Memory }
        ensures count { IfOk result (λ n. n ≡ min (min (length into.new) (file_store self.old).read_limit) (length ((file_store self.old).files name.now) - at)) }
        ensures rest { IfOk result (λ n. drop n into.new ≡ drop n into.old) }
        ensures unread { OnErr result (into.new ≡ into.old) }
        ensures after { file_store self.new ≡ after_read (file_store self.old) result }
    {
        if self.listed_reads.count_call() {
            self.read_faults = self.read_faults.saturating_add(1);
            return Err(FileFault::Failed);
        }
        Ok(give(self.files.bytes_of(name), at, self.read_limit, into))
    }

    /// Takes no memory where the store has the file.
    fn begin(&mut self, name: &str) -> Result<(), FileFault>
        // what each store of files does
        ensures bytes { ChangesOnly (file_store self.old).files (file_store self.new).files name.now (Begins result) }
        ensures cause { FileCause (file_store self.old).write_faults (file_store self.new).write_faults result }
        ensures other { (file_store self.new).read_faults ≡ (file_store self.old).read_faults }

        // when it fails, and what it leaves
        ensures listed { (result ≡ Err FileFault.Failed) ↔ Contains (file_store self.old).listed_begins 1 }
        ensures kept { OnErr result ((n : List ℕ) → (file_store self.new).files n ≡ (file_store self.old).files n) }
        ensures after { file_store self.new ≡ after_change CallKind.Begin (file_store self.old) (file_store self.new).files result }
    {
        if self.listed_begins.count_call() {
            self.write_faults = self.write_faults.saturating_add(1);
            return Err(FileFault::Failed);
        }
        self.files.make_empty(name)?;
        Ok(())
    }

    /// Extends the file in place. After a refusal no byte was added.
    fn append(&mut self, name: &str, bytes: &[u8]) -> Result<(), FileFault>
        // what each store of files does
        ensures bytes { ChangesOnly (file_store self.old).files (file_store self.new).files name.now (Appends bytes.now result) }
        ensures cause { FileCause (file_store self.old).write_faults (file_store self.new).write_faults result }
        ensures other { (file_store self.new).read_faults ≡ (file_store self.old).read_faults }

        // when it fails, and what it leaves
        ensures listed { (result ≡ Err FileFault.Failed) ↔ Contains (file_store self.old).listed_appends 1 }
        ensures kept { OnErr result ((n : List ℕ) → (file_store self.new).files n ≡ (file_store self.old).files n) }
        ensures after { file_store self.new ≡ after_change CallKind.Append (file_store self.old) (file_store self.new).files result }
    {
        if self.listed_appends.count_call() {
            self.write_faults = self.write_faults.saturating_add(1);
            return Err(FileFault::Failed);
        }
        self.files.extend(name, bytes)?;
        Ok(())
    }

    fn read_faults(&self) -> u64 {
        self.read_faults
    }

    fn write_faults(&self) -> u64 {
        self.write_faults
    }
}
