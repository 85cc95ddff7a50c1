// A store of files by name.
ghost use Rattle.std.specs.Prelude.{◌≡◌, ◌<◌, ◌≤◌, ℕ, Option, length, IfOk};
ghost use Rattle.spur_io.specs.Store.{FileMap, Reads, Changes, Begins, Appends};
ghost use Rattle.spur_io.specs.Causes.{FileCause};

use std::alloc::{AllocError, AllocFailed};
use std::io;

/// Why a store refused a call.
#[derive(Clone, Copy, Debug, PartialEq, Eq)]
pub enum FileFault {
    /// The store failed, and counted that.
    Failed,
    /// The store lacked memory.
    Memory,
}

impl From<io::Error> for FileFault {
    ghost use Rattle.spur_io.specs.declared.files.FileFault.TheVariants.{Failed};

    ghost from_gives = { λ _ e. e ≡ Failed };

    fn from(_: io::Error) -> Self {
        FileFault::Failed
    }
}

impl From<AllocError> for FileFault {
    ghost use Rattle.spur_io.specs.declared.files.FileFault.TheVariants.{Memory};

    ghost from_gives = { λ _ e. e ≡ Memory };

    fn from(_: AllocError) -> Self {
        FileFault::Memory
    }
}

impl<T: Drop> From<AllocFailed<T>> for FileFault {
    ghost use Rattle.spur_io.specs.declared.files.FileFault.TheVariants.{Memory};

    ghost from_gives = { λ _ e. e ≡ Memory };

    fn from(_: AllocFailed<T>) -> Self {
        FileFault::Memory
    }
}

/// A finite map from names to bytes, where the store tells that, and two counts of faults.
///
/// The counts never fall, and stand still at the last value of a `u64`. A store that tells its bytes before a
/// call tells them after it, also at a refusal, and one that tells none goes on so.
pub trait Files {
    /// The bytes of each name, if the store tells them. A missing name is an empty file.
    ghost told: { Self → Option FileMap };

    /// How many reads have failed.
    ghost read_count: { Self → ℕ };

    /// How many changes have failed.
    ghost write_count: { Self → ℕ };

    /// Reads bytes of the file from the byte `at` on to the front of `into`, and says how many: at least one, and
    /// none just where the file ends at `at` or before.
    ///
    /// What `into` has behind them is left open, and so is all of it after a refusal. A store that tells no bytes
    /// may answer a missing name as a failure.
    fn read_at(&mut self, name: &str, at: u64, into: &mut [u8]) -> Result<usize, FileFault>
        requires { 0 < length into.old }
        ensures bound { IfOk result (λ n. n ≤ length into.new) }
        ensures bytes { Reads (told self.old) name.now at into.new result }
        ensures same { told self.new ≡ told self.old }
        ensures cause { FileCause (read_count self.old) (read_count self.new) result }
        ensures other { write_count self.new ≡ write_count self.old };

    /// Makes the name an empty file. After a refusal the file is as before or empty.
    fn begin(&mut self, name: &str) -> Result<(), FileFault>
        ensures bytes { Changes (told self.old) (told self.new) name.now (Begins result) }
        ensures cause { FileCause (write_count self.old) (write_count self.new) result }
        ensures other { read_count self.new ≡ read_count self.old };

    /// Adds the bytes at the file's end. After a refusal some of the first of them may have been added.
    fn append(&mut self, name: &str, bytes: &[u8]) -> Result<(), FileFault>
        ensures bytes { Changes (told self.old) (told self.new) name.now (Appends bytes.now result) }
        ensures cause { FileCause (write_count self.old) (write_count self.new) result }
        ensures other { read_count self.new ≡ read_count self.old };

    fn read_faults(&self) -> u64
        ensures { result ≡ read_count self.now };

    fn write_faults(&self) -> u64
        ensures { result ≡ write_count self.now };
}
