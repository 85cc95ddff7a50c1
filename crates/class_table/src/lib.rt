//! Classes, their instances, and identity hashes.
//!
//! A class is entered where it has an identity hash and the class table has it at that index. Slot 2 of a class is a SmallInteger: its low 16 bits are
//! the number of fixed slots, the next 5 the format of an instance, as in Spur's class side of formats. Instances are made of entered classes alone, so that
//! the class index in their headers, the class's hash, leads back to the class.
//!
//! The layers above rest on the three calls: each answers the first refusal of its row, in the row's order, and then changes nothing; else the graph and the
//! room of the heap are those that the object graph machine has next. Identity hashes are drawn where they are first asked for; the generator is this
//! project's own, and so is the rule that a class is entered at the least free index from 1,024 on.
#![tactic(auto)]

mod classes;
mod hashes;
mod instances;
mod layout;

pub use classes::enter;
pub use hashes::identity_hash;
pub use instances::instantiate;
