//! The partial read barrier: what is read of the objects that words lead to, and written to them.
//!
//! A word of a slot or a handle may name an object that has become a forwarder since it was written. Miranda and Béra ("A Partial Read Barrier for
//! Efficient Support of Live Object-Oriented Programming", ISMM 2015) test for that where an object is worked on, and not where a reference to it is read.
//! So it is here: a fetch hands the word of the slot on as it is and tests nothing of it, and whoever works on an object follows its word first. Forwarders
//! cost only whoever meets one, a step for each on the way.
//!
//! The layers above rest on this: a call takes a good word, followed or not, and for all words of one value does and answers the same, that which the object
//! graph machine says. A call that can be refused names the first refusal of its row, in the row's order, and then changes nothing. A store changes the
//! word of one slot, or of one unit, and where an object of old space then names new space, its remembered bit.
//!
//! Which formats have slots and units is told by `object_header`, from the class comment of Spur's memory manager; the order of the refusals is this
//! project's own.
#![tactic(auto)]

mod objects;
mod slots;
mod units;
mod values;

pub use slots::{fetch, store};
pub use units::{fetch_unit, store_unit};
pub use values::{class_of, same, shown, size};
