//! Small sequence constructors and stylesheets, and what they become in a query: definitions and laws
//! alone, nothing runs.
//!
//! A row has instructions and the expression that they become, spelled out, or a stylesheet and the
//! functions and the body of its query.
#![tactic(auto)]

mod laws;

pub use laws::{
    each_row_is_what_the_definitions_give, each_stylesheet_has_the_query_that_the_definitions_give,
};
