//! Files by name and a sink of bytes: all that the object memory asks of the world outside.
//!
//! An object memory reads an image and a script, writes images and segments of objects, and puts out lines of
//! answers. It does so through two traits. `Files` is a finite map from names to bytes, and `Sink` is a sequence
//! of bytes that grows. The layers above rest on three facts of each call: what it reads or changes, where the
//! store tells its bytes; that nothing else changes; and that it answers `Failed` only where a count of faults
//! rose, so that no failure is taken for the end of a file or for want of memory.
//!
//! Files and a sink in memory tell their bytes, and fail at just the calls that a test lists. The adapters over
//! the files and the output of the system tell nothing: they are the trusted edge.
#![tactic(auto)]

mod files;
mod full_reads;
mod listed_calls;
mod memory_files;
mod memory_sink;
mod no_memory;
mod open_files;
mod pieces;
mod real_files;
mod real_out;
mod sink;
mod stored_files;
#[cfg(test)]
mod tests;

pub use files::{FileFault, Files};
pub use full_reads::read_full;
pub use memory_files::{CallKind, MemoryFiles};
pub use memory_sink::MemorySink;
pub use no_memory::NoMemory;
pub use real_files::RealFiles;
pub use real_out::RealOut;
pub use sink::{Sink, SinkFault};
