//! What is tested of the words of an image before anything reads them.
//!
//! The words are those of the objects of all segments, one after another. The passes over them go in the order of the causes for which an image
//! is refused: each chunk is read in its segment; the first five are nil, false, true, the free lists object and the hidden roots; each forwarder
//! leads to an object; the hidden roots name nil and class table pages; the entries of the pages lead to nil and to classes. The pointer slots of the
//! other objects are tested where they are settled. A pass takes time linear in the words, allocates nothing and does not recurse, whatever the words
//! are. Forwarders and objects are found by the maps of their starts, so that no word between these is tried.
//!
//! The layers above rest on this: a pass answers with the least bad place, and with none exactly where nothing is bad. Once the chunks are read,
//! the words are cut into them without a rest. The map of starts then has objects and forwarders, and free chunks not. Once the forwarders are
//! resolved, each names the object to which it leads, so that a reference is followed in one step. And once the pages are taken, a second map has
//! the ordinary objects, so that a reference is judged in constant time: a slot that names the middle of an object, a free chunk or an internal
//! object is refused.
//!
//! The layout is that of 64-bit Spur, image format 68021; forwarders are those of "A Partial Read Barrier for Efficient Support of Live
//! Object-Oriented Programming" (ISMM 2015).
#![tactic(auto)]

mod chains;
mod entries;
mod head;
mod laws;
mod pages;
mod references;
mod roots;
mod walk;

pub use chains::resolve_forwarders;
pub use entries::first_bad_entry;
pub use laws::keeps_five;
pub use pages::{mark_objects, take_pages};
pub use references::is_good_reference;
pub use roots::first_bad_root;
pub use walk::first_bad_object;
