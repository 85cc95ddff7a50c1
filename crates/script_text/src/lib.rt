//! The text of a script: lines read as commands, and answers written as lines.
//!
//! [`read_line`] reads one line without its line feed, and [`write_answer`] writes the line that answers it. Neither takes
//! memory.
//!
//! The layer above rests on three facts. A line is read as a command exactly where the table of commands
//! (`spur_graph`, `IsCommand` and `IsLine`) has its words, so what is refused as no line is none. No line has two
//! readings. The line of an answer has one line feed, its last byte, so the answers that were written one behind
//! another can be told apart.
//!
//! The language is this project's own, described in docs/SCRIPT.md. Its commands name what Spur's memory manager does
//! for the virtual machine above it: it makes objects, reads and writes their slots, lets two become one another, pins
//! them, scavenges, collects, and stores and loads segments.
#![tactic(auto)]

mod answer;
mod command;
mod laws;
mod line;
mod number;
#[cfg(test)]
mod tests;
mod word;

pub use answer::write_answer;
pub use laws::{answers_are_lines, one_reading, words_are_line};
pub use line::{Syntax, read_line};
pub use number::number_of;
