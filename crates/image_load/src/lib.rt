//! The loader: an image file becomes a heap, or is refused by its first cause.
//!
//! The front of the file comes first, and no memory is taken for a heap before the file is known to be as long as its header promises. The words of
//! its objects are then read into the places of the heap, tested there, and turned there into words of a heap: there is no second copy of them. Nothing in a
//! file is believed before it is tested, so that whatever the bytes are a heap stands for a graph.
//!
//! The layers above rest on this: a file that loads is one to which no cause applies, and the heap stands for the graph and the room of its bytes,
//! up to names; a file that is refused is told its first cause, of the least place where it applies; and a failed read is told where one failed, and
//! nowhere else. Loading ends for every file. A place is told as an offset in the file.
//!
//! The layout is that of 64-bit Spur, image format 68021. The order of the causes is that of the definitions in `spur_graph`.
#![tactic(auto)]

mod checks;
mod image;
mod loader;
mod objects;
#[cfg(test)]
mod tests;

pub use image_file::LoadError;
pub use loader::load;
