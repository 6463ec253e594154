//! What an evaluator of expressions does between evaluations (XPath 2.0, 3; XQuery 1.0, 3): values to
//! variables, positions, what predicates keep, keys of tuples.
//!
//! Each call answers exactly what the meaning of expressions has at that place. The proofs have what
//! an evaluator's loops stand on: how answers follow one another, what is left of a loop, and what
//! the forms mean by their parts.
//!
//! Example: at the item 7 the clause `for $x in 7` binds `$x` to the list of 7.
#![tactic(auto)]

pub mod eval_inner;
mod steps;
pub mod value_slots;

pub use eval_lates;
pub use eval_lates::{eval_scopes, operator_values};
pub use eval_nodes;
pub use steps::{
    WRONG_TYPE, bound_item, bound_list, bound_place, is_kept_at, list_size, literal_integer,
    literal_place, literal_text, ordered_items, path_items, path_size, place_in, pop_variable,
    push_attribute, push_cell, push_item, push_kept, push_list, push_next, push_position,
    push_value, push_variable, step_from, truth_list, truth_of, tuple_key,
};
