//! The patterns of a stylesheet as its query has them: definitions and laws alone, nothing runs.
//!
//! A pattern becomes an expression over the node that the variable `$x:item` holds: a path that walks
//! upwards from it, from the last step of the pattern to the first, and is empty where the pattern
//! does not match. So its truth value tells whether the pattern matches; it fails nowhere and makes
//! nothing. Predicates that look at no position stay as they are. Others keep the node if it is among
//! those that they keep of the children or attributes of its parent.
//!
//! Example: `/a//b[@k]/c[2]` becomes
//! `$x:item/self::c[..]/parent::b[@k]/ancestor::a/parent::document-node()`, where `[..]` is
//! `[parent::node()/child::c[2] intersect .]`.
#![tactic(auto)]

mod laws;
mod properties;

pub use laws::{
    the_test_of_a_pattern_fails_at_an_atom, the_test_of_a_pattern_is_true_where_it_matches,
};
pub use properties::{
    tests_of_patterns_are_regular, tests_of_patterns_have_sound_texts,
    tests_of_patterns_have_what_their_forms_keep, tests_of_patterns_name_the_item_alone,
    tests_of_patterns_nest_little,
};
