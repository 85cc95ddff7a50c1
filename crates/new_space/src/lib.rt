//! New space: eden and the two survivor spaces, and how much of each is used.
//!
//! As in Spur's generation scavenger (the class comment of SpurGenerationScavenger), objects are made in eden, each behind the one before. One of the two
//! survivor spaces is **past space**: it has what outlived the scavenge before. The other is **future space**, empty but while a scavenge copies into it
//! what it finds alive. Then future space becomes past space, and eden and the old past space are empty.
//!
//! Nothing here looks at a word. A [`NewSpace`] is places, which are indices of words of a region, and numbers of words; who has the region writes in it.
//! The layers above see these numbers by name, and rest on one rule: what is used of a space fits it. So a call that hands out words says exactly when
//! there are too few, and [`NewSpace::flip`] and [`NewSpace::cut`] say what is used then, of each space.
#![tactic(auto)]

mod space;
#[cfg(test)]
mod tests;

pub use space::{NewSpace, Part};
