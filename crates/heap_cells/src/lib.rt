//! The theory of what stands in the words of a heap: rows of chunks, cells, chains of forwarders, and what loading and writing do to them.
//!
//! Chunks stand among words in order, and words of no chunk may stand between them: a space is cut into chunks without a rest, and the chunks of all
//! spaces of a heap are one row in order. Each start has a cell (nothing, a forwarder, or an object with its words as they are), and a graph is a
//! function of the cells. The layers above rest on the laws that stand here: what a write changes, also where it makes an object a forwarder, what becomes
//! of the words of an accepted image whose references are made those of a heap, and that the graph of a store is closed.
//!
//! The layout is Spur's object representation; forwarders are those of "A Partial Read Barrier for Efficient Support of Live Object-Oriented
//! Programming" (ISMM 2015).
#![tactic(auto)]

mod laws;

pub use laws::loadable_is_closed;
