// The output of the system. It tells no bytes.
ghost use Rattle.std.specs.Prelude.{None};
ghost use Rattle.spur_io.specs.Causes.{SinkCause};

use crate::pieces::Pieces;
use crate::{NoMemory, Sink, SinkFault};
use std::alloc::Global;
use std::io::Write;

/// A writer of the system, as standard output.
///
/// It gathers bytes and hands them on to the writer in pieces of at least 64 KiB; `finish` hands on the rest. A put
/// takes no memory. Once the writer has failed, each later call answers `Failed`.
#[derive(Drop)]
pub struct RealOut<W: Write + Drop> {
    pieces: Pieces<W>,
    has_failed: bool,
    faults: u64,
}

impl<W: Write + Drop> RealOut<W> {
    /// Takes the memory of all later puts.
    pub fn new(alloc: Global, out: W) -> Result<RealOut<W>, NoMemory> {
        Ok(RealOut {
            pieces: Pieces::new(alloc, out)?,
            has_failed: false,
            faults: 0,
        })
    }

    /// Hands on what is left. Bytes that were put and not handed on are lost without it.
    pub fn finish(&mut self) -> Result<(), SinkFault>
        ensures { SinkCause (⟦<RealOut<W> as Sink>⟧.fault_count self.old) (⟦<RealOut<W> as Sink>⟧.fault_count self.new) result }
    {
        if self.has_failed {
            return self.refuse();
        }
        match self.pieces.finish() {
            Ok(()) => Ok(()),
            Err(_) => self.refuse(),
        }
    }

    fn refuse(&mut self) -> Result<(), SinkFault>
        ensures { SinkCause self.old.faults self.new.faults result }
    {
        self.has_failed = true;
        self.faults = self.faults.saturating_add(1);
        Err(SinkFault::Failed)
    }
}

impl<W: Write + Drop> Sink for RealOut<W> {
    ghost so_far = { λ _. None };

    ghost fault_count = { λ s. s.faults };

    fn put(&mut self, bytes: &[u8]) -> Result<(), SinkFault> {
        if self.has_failed {
            return self.refuse();
        }
        match self.pieces.write(bytes) {
            Ok(()) => Ok(()),
            Err(_) => self.refuse(),
        }
    }

    fn faults(&self) -> u64 {
        self.faults
    }
}
