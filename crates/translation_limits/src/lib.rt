//! Closed stylesheets have queries whose expressions are regular and nest at most 400 levels: a law
//! alone, nothing runs.
//!
//! The law of `translation` asks that the expressions, types and patterns of a stylesheet are regular
//! and nest little. Here this is shown of each stylesheet whose parts are good and stand where they may.
#![tactic(auto)]

mod laws;

pub use laws::closed_stylesheets_have_queries_within_the_limits;
