// A sink in memory, which tells its bytes and fails where a test lists it.
ghost use Rattle.std.specs.Prelude.{◌≡◌, ◌↔◌, [], ◌∷◌, ◌++◌, Some, IfOk, OnOk, OnErr, Contains};
ghost use Rattle.spur_io.specs.Store.{Puts};
ghost use Rattle.spur_io.specs.Causes.{SinkCause};

use crate::listed_calls::ListedCalls;
use crate::{NoMemory, Sink, SinkFault};
use std::alloc::Global;

/// Bytes in memory.
///
/// A put answers `Failed` exactly where its number is listed, and then it adds nothing; nor does it at want of memory.
#[derive(Drop)]
pub struct MemorySink {
    bytes: Vec<u8>,
    listed_puts: ListedCalls,
    faults: u64,
}

impl MemorySink {
    ghost use Rattle.spur_io.specs.Memory.{byte_sink};

    /// No bytes and no listed put.
    pub fn new(alloc: Global) -> Result<MemorySink, NoMemory>
        ensures { IfOk result (λ s. byte_sink s ≡ record { bytes = []; listed = []; faults = 0 }) }
    {
        Ok(MemorySink {
            bytes: Vec::new(alloc),
            listed_puts: ListedCalls::new(alloc),
            faults: 0,
        })
    }

    /// Lists a put that is to fail, besides those that are listed already. The number counts from 1 the puts that
    /// come after this call, so 0 is the number of none.
    pub fn fail_put(&mut self, _alloc: Global, number: u64) -> Result<(), NoMemory>
        ensures ok { OnOk result (byte_sink self.new ≡ record (byte_sink self.old) { listed = (byte_sink self.old).listed ++ number ∷ [] }) }
        ensures err { OnErr result (byte_sink self.new ≡ byte_sink self.old) }
    {
        self.listed_puts.list(number)?;
        Ok(())
    }

    /// The bytes so far.
    pub fn bytes(&self) -> &[u8]
        ensures { result.now ≡ (byte_sink self.now).bytes }
    {
        &self.bytes
    }
}

impl Sink for MemorySink {
    ghost use Rattle.spur_io.specs.Memory.{byte_sink, after_put};

    ghost so_far = { λ s. Some (byte_sink s).bytes };

    ghost fault_count = { λ s. s.faults };

    /// After a refusal no byte was added.
    fn put(&mut self, bytes: &[u8]) -> Result<(), SinkFault>
        // what each sink does
        ensures bytes { Puts bytes.now (Some (byte_sink self.old).bytes) (Some (byte_sink self.new).bytes) result }
        ensures cause { SinkCause (byte_sink self.old).faults (byte_sink self.new).faults result }

        // when it fails, and what it leaves
        ensures listed { (result ≡ Err SinkFault.Failed) ↔ Contains (byte_sink self.old).listed 1 }
        ensures after { byte_sink self.new ≡ after_put bytes.now (byte_sink self.old) result }
    {
        if self.listed_puts.count_call() {
            self.faults = self.faults.saturating_add(1);
            return Err(SinkFault::Failed);
        }
        match self.bytes.extend_from_slice(bytes) {
            Ok(()) => Ok(()),
            Err(_) => Err(SinkFault::Memory),
        }
    }

    fn faults(&self) -> u64 {
        self.faults
    }
}
