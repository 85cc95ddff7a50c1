//! The heap: a region of words that stands for an object graph, and the tables beside it.
//!
//! A [`Heap`] has one invariant, `IsWhole` of its view, and the layers above rest on these clauses of it:
//! - `spaces`, `rows`: old space, eden and two survivor spaces stand one behind another. Old space, the used part of eden and the used part of past
//!   space are each cut into chunks without a rest; words of no chunk may stand between them;
//! - `sound`, `held`, `special_there`, `mourners`: the chunks stand for a graph. Each pointer slot of an ordinary object and each handle has an immediate
//!   or leads to an ordinary object; the special objects word, each mourner and each entry of the class table leads to one. So whoever is handed a heap
//!   may follow these words without a test;
//! - `inner`, `young`: internal objects and free chunks stand in old space, and nothing in new space is pinned;
//! - `remembered`: what stands in old space and names new space has the remembered bit, but for the free lists object, and no free chunk and nothing in
//!   new space has it;
//! - `bits`: no header has a grey bit or a bit of no field, and where the phase is `Whole` none has a mark bit.
//!
//! Beside it, each table agrees with the words: the map has the starts of objects and forwarders, the free lists have the free chunks of old space, the
//! table of remembered starts has those whose headers have the remembered bit, each once, and the number of ordinary objects is kept. The mark stack and
//! the tables of remembered starts and of mourners have a place for each object that the words can hold, so that none of them ever asks for memory.
//!
//! The header tells whether a start is remembered. So whoever has to remember one reads its bit, and no write searches the table.
//!
//! What reads words here asks for `spaces`, `rows`, `sound` and `few` alone, and so serves between two steps of a write as well.
//!
//! Forwarders may stand in a heap; to follow a word is to go from forwarder to forwarder until an object stands there, the partial read barrier of
//! Miranda and Béra (ISMM 2015). The layout is that of Spur's 64-bit object memory, with indices of words in place of byte addresses.
#![tactic(auto)]

mod adopting;
mod allocation;
mod bare;
mod chains;
mod classes;
mod clearing;
mod counts;
mod entries;
mod exchanging;
mod flags;
mod follow;
mod forwarding;
mod hashes;
mod head;
mod heap;
mod making;
mod marks;
mod mourners;
mod naming;
mod objects;
mod pairs;
mod places;
mod remembering;
mod slots;
mod spots;
mod standing;
mod swapping;
mod taking;
mod units;

pub use allocation::{BLANK_CLASS, BLANK_FORMAT, Space};
pub use bare::Bare;
pub use chains::follow_start;
pub use heap::{Heap, HeapParts, Phase};
pub use places::first_start;
pub use remembering::remember_anew;
pub use slots::pointer_count_of;
