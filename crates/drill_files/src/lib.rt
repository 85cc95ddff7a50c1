//! The files of a drill, written through the store. The first of them is the base image: a small image with every
//! internal object of the format and the classes that scripts need.
//!
//! The layer above rests on one fact: where the store tells its bytes, the file is the base image (`spur_graph`,
//! `base_image`), and after a refusal it is as before or a prefix of the image. So the image that a drill runs over
//! is the one that the definitions speak of, and it is loaded as any other image is.
//!
//! What stands in the image are Spur's own rules: the singletons nil, false and true at the head of the heap, the free
//! lists object, the hidden roots with the pages of the class table, and a bridge of two words behind the last object.
#![tactic(auto)]

mod base_header;
mod base_words;
mod image_writer;
mod puts;
#[cfg(test)]
mod tests;

pub use image_writer::write_base_image;
