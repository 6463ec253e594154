//! The helper functions of a query that stands for a stylesheet, and what they give: definitions and
//! laws alone, nothing runs.
//!
//! `nodes` refuses what is no node, before any rule is applied. `last` keeps of attributes with one name
//! the last, so that the content of an element is in the query what it is in the stylesheet. `simple`
//! gives the simple content of items. `copy` gives a new node with an equal tree. Each calls functions
//! of the library alone, so that one call that is left is enough.
//!
//! Example: of `@a`, the empty string, another `@a` and a text, `last` keeps the second `@a` and the
//! text; kept beside another empty string, the first would make a space of the two.
#![tactic(auto)]

mod laws;

pub use laws::{
    copy_gives_an_equal_tree, helpers_fit_into_every_query, last_gives_what_is_kept,
    nodes_gives_nodes, nodes_of_sound_trees_are_placed, simple_gives_simple_content,
    what_is_kept_has_the_same_content,
};
