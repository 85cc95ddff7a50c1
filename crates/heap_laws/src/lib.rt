//! The law of moved places: a store whose kept objects stand elsewhere stands for the same graph.
//!
//! Loading, full collection, sweeping, copying with a forwarder and saving all leave the objects of a store, or those of them that are kept, under
//! other places, with words that lead there. That nothing refuses the new store, that it is sound in a heap, and that its graph is that of what is
//! kept, up to names, is proved here once, for any two stores and any function from places to places. So a layer above shows how its words differ
//! from those before, and no more: for each of the five there is a definition of that, and a law that whatever meets it is such a move. Rooms have
//! laws of their own, and the heap's invariant is all that the laws ask of a heap.
//!
//! The rule is that a place is no part of what an object is: programs tell objects apart by identity alone, and the graph machine renames them
//! freely. Forwarders are those of "A Partial Read Barrier for Efficient Support of Live Object-Oriented Programming" (ISMM 2015).
#![tactic(auto)]

mod laws;

pub use laws::{
    all_are_kept, all_moves_heap, compacted_moves_heap, copied_is_swapped, copied_moves_heap,
    heap_has_spots, heap_is_left, kept_by_name, kept_under_iso, loaded_is_placed, placed_has_spots,
    placed_is_loadable, placed_is_same_graph, placed_is_same_room, placed_is_sound,
    placed_moves_heap, places_pair, readdressed_is_same_graph, readdressed_moves_heap,
    settled_is_good, settled_is_same_graph, settled_is_same_room, settled_is_sound,
    swept_moves_heap, whole_is_ready, zoned_spots,
};
