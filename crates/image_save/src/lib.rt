//! The saver: a heap becomes an image file of one segment, and stays as it is.
//!
//! Spur collects all garbage before a snapshot, and so empties new space and resolves forwarders first. Here nothing is collected and nothing is moved. The
//! chunks of old space, of eden and of past space are closed up in the file, without the free chunks at the end of old space. They keep their order and
//! their sizes, so that the place of a word in the file is its place in the region less what was left out before it, and neither a table nor a second copy of
//! the heap is needed. Pointer slots are written followed, and headers without mark, grey and remembered bit. A free chunk and a forwarder are written by
//! their size alone, as the free chunk of so many words that a loader makes, with 0 behind its head words. The words of the free lists object are written as
//! 0. That is this project's choice; the layout is Spur's, image format 68021.
//!
//! The layers above rest on this: where the store tells its bytes, the named file is the text of the heap (`saved_text`), after a refusal it is as before or
//! a prefix of that text, and no other file changes. The time is linear in the words, but for the chains of forwarders: each slot walks the one that it names.
//!
//! And that text denotes the heap's graph (`saved_denotes`): no cause of refusal but `large` applies to it, and whoever loads it has the objects, the class
//! table, the special objects and the hash state of the heap, under other names. Handles and mourners are not saved.
#![tactic(auto)]

mod cursor;
mod image;
mod laws;
mod places;
mod saver;
mod words;

pub use laws::saved_denotes;
pub use saver::save;
