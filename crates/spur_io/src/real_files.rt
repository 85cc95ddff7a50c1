// The files of the system. They tell no bytes.
ghost use Rattle.std.specs.Prelude.{◌≡◌, ◌≤◌, ◌<◌, length, None, IfOk};

use crate::open_files::OpenFiles;
use crate::{FileFault, Files};
use std::alloc::Global;
use std::rt::Files as SystemFiles;

/// The files of the system, by their paths.
///
/// The file that was read last stays open, and so does the file that was added to last: a file that is read or
/// written in pieces is opened once. A path that is missing or that of a directory is a failure.
#[derive(Drop)]
pub struct RealFiles<R: SystemFiles + Drop> {
    open: OpenFiles<R>,
    read_faults: u64,
    write_faults: u64,
}

impl<R: SystemFiles + Drop> RealFiles<R> {
    pub fn new(alloc: Global, system: R) -> Self {
        RealFiles {
            open: OpenFiles::new(alloc, system),
            read_faults: 0,
            write_faults: 0,
        }
    }
}

impl<R: SystemFiles + Drop> Files for RealFiles<R> {
    ghost told = { λ _. None };

    ghost read_count = { λ s. s.read_faults };

    ghost write_count = { λ s. s.write_faults };

    fn read_at(&mut self, name: &str, at: u64, into: &mut [u8]) -> Result<usize, FileFault> {
        match self.open.read_at(name, at, into) {
            Err(FileFault::Failed) => {
                self.read_faults = self.read_faults.saturating_add(1);
                Err(FileFault::Failed)
            }
            answer => answer,
        }
    }

    fn begin(&mut self, name: &str) -> Result<(), FileFault> {
        match self.open.begin(name) {
            Err(FileFault::Failed) => {
                self.write_faults = self.write_faults.saturating_add(1);
                Err(FileFault::Failed)
            }
            answer => answer,
        }
    }

    fn append(&mut self, name: &str, bytes: &[u8]) -> Result<(), FileFault> {
        match self.open.append(name, bytes) {
            Err(FileFault::Failed) => {
                self.write_faults = self.write_faults.saturating_add(1);
                Err(FileFault::Failed)
            }
            answer => answer,
        }
    }

    fn read_faults(&self) -> u64 {
        self.read_faults
    }

    fn write_faults(&self) -> u64 {
        self.write_faults
    }
}
