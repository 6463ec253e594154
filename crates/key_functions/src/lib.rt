//! The functions of keys in a query that does what a stylesheet does, and what they find: definitions
//! and laws alone, nothing runs.
//!
//! A stylesheet's key() looks in the tree of a node for the nodes that have a value. In the query each
//! name of a key has a function, which goes over the nodes and attributes of the tree and compares
//! the values that the declarations give them.
//!
//! Example: with `<xsl:key name="k" match="a" use="@b"/>` the function of `k` finds for a node and
//! the text "1" the elements `a` of its tree whose attribute `b` is 1.
#![tactic(auto)]

mod laws;

pub use laws::{
    expressions_without_constructors_make_no_tree, key_functions_fit_into_every_query,
    keys_are_found_by_their_functions, the_same_is_carried_both_ways, uses_are_carried,
};
