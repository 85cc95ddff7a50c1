//! What is known of the words of an image, and where its references lead.
//!
//! A slot of an image's object names a start by its address, that of an ordinary object or of a forwarder. Once each forwarder names the object to
//! which it leads, a reference is followed in one step at most, and a map of the ordinary objects tells in constant time whether it is good; the
//! words of the object itself are not read.
//!
//! The layers above rest on this: the answer is the ordinary object to which a word leads, and none exactly where it leads to none. It holds of words
//! that are being settled too, since only the headers' classes and the words of forwarders are read.
//!
//! Forwarders are those of "A Partial Read Barrier for Efficient Support of Live Object-Oriented Programming" (ISMM 2015).
#![tactic(auto)]

mod image;
mod references;

pub use image::{ImageWords, Roots};
pub use references::{is_forwarder, ordinary_start};
