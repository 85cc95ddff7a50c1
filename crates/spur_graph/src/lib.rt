//! The object graph machine: what an image and each line of a script mean, the plain types of commands and answers, and the numbers that the
//! format of an image fixes.
//!
//! Everything above is proved against the definitions in `specs/`: values and nodes, the graph, the grammar of
//! a script, the refusals of each command in their order, a step and a run, and the graph of an image. The machine
//! knows no addresses, forwarders, generations or free lists; names stand for objects. The rules are those of Spur's object
//! representation and class table, and of this project's script language (docs/SCRIPT.md, docs/DEFINITIONS.md).
#![tactic(auto)]

mod answer;
mod command;
mod laws;
mod layout;
mod limits;

pub use answer::{Answer, Counts, Full, Refusal, SegmentCause, Shown, Stat, Value};
pub use command::{Command, FileName, HandleName, Line};
pub use laws::{handle_bound, keeps_names, live_by_rules, words_fit};
pub use layout::{
    BRIDGE_BYTES, FORWARDER_FORMAT, FREE_LISTS, GREATEST_BASE, GREATEST_END, HEADER_BYTES,
    HIDDEN_ROOTS, HIDDEN_ROOTS_SLOTS, PAGE_ENTRIES, PAGE_PLACES, SPUR_FORMAT,
};
pub use limits::{Limits, MOST_WORDS};
