//! Which quiet predicates keep a node wherever it stands among others.
//!
//! `is_place_free` tells by the form of a predicate whether it looks at positions: an integer alone, position() and last() do, where
//! no path stands around them. What it passes keeps a node at each position alike, and so its position need not be known.
//! `is_size_free` tells whether it looks at how many nodes there are, as last() does: what it passes can be judged before the later
//! nodes are known.
//!
//! Example: `@k = "a"` and `b[2]` are free of their place; `2` and `@k and position() = last()` are not. `2`
//! is free of the size.

mod places;

pub use places::{
    is_place_free, is_size_free, place_free_predicates_keep_a_node_anywhere,
    size_free_predicates_keep_a_node_among_any_number,
};
