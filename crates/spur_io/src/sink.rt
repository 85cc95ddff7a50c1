// A sink of bytes.
ghost use Rattle.std.specs.Prelude.{◌≡◌, ℕ, List, Option};
ghost use Rattle.spur_io.specs.Store.{Puts};
ghost use Rattle.spur_io.specs.Causes.{SinkCause};

/// Why a sink refused a put.
#[derive(Clone, Copy, Debug, PartialEq, Eq)]
pub enum SinkFault {
    /// The sink failed, and counted that.
    Failed,
    /// The sink lacked memory.
    Memory,
}

/// The bytes so far, where the sink tells them, and a count of faults.
///
/// The count never falls, and stands still at the last value of a `u64`. A sink that tells its bytes before a
/// put tells them after it, also at a refusal, and one that tells none goes on so.
pub trait Sink {
    /// The bytes so far, if the sink tells them.
    ghost so_far: { Self → Option (List ℕ) };

    /// How many puts have failed.
    ghost fault_count: { Self → ℕ };

    /// Adds the bytes at the end. After a refusal some of the first of them may have been added.
    fn put(&mut self, bytes: &[u8]) -> Result<(), SinkFault>
        ensures bytes { Puts bytes.now (so_far self.old) (so_far self.new) result }
        ensures cause { SinkCause (fault_count self.old) (fault_count self.new) result };

    fn faults(&self) -> u64
        ensures { result ≡ fault_count self.now };
}
