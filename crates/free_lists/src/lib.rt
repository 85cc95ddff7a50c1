//! The free chunks of old space.
//!
//! As in Spur's memory manager (the class comment of SpurMemoryManager), the free chunks are kept by
//! size, and the links stand in the chunks themselves: each size below 64 words has a list, a word
//! has a bit for each of these lists that is not empty, and the larger chunks stand in a search tree.
//! So nothing is kept beside the chunks but the heads of the lists, that word, the top of the tree
//! and the number of free words. Here the tree is ordered by size and then by place, and balanced by
//! heights. A small size costs a few steps, a large one as many as the tree is deep, which is some
//! logarithm of the number of large chunks; that the tree stays balanced is not proved.
//!
//! Which chunk serves a need is this project's own rule: **the smallest that fits**. It fits where it
//! has the words needed exactly, or two and more besides: they stay a free chunk, and one word can be
//! none.
//!
//! The layers above see neither lists nor tree. To them a [`FreeLists`] stands, together with the
//! region that holds it, for a **set of runs**, where a run is the place of a chunk and its size in
//! words. `Lists words free runs` says that `runs` lists this set, in whichever order, and a clause
//! says of each such list what becomes of it. So a caller goes on with the list that it knows, as
//! that of the free chunks in the order of their places. The proofs above rest on three lemmas: the
//! set may be listed otherwise (`lists_set`), writes to words of no free chunk keep it
//! (`keeps_lists`), and each free chunk is one of a row of chunks (`free_is_written`).
#![tactic(auto)]

mod chunks;
mod lists;
#[cfg(test)]
mod tests;
mod tree;

pub use lists::FreeLists;
