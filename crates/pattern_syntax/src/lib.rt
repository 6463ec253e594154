//! The parser of patterns (XSLT 2.0, 5.5.2).
//!
//! `parse_pattern` gives the alternatives of the pattern that a text spells, in order: its tokens
//! spell an expression that has the shape of a pattern, its predicates nest no deeper than the
//! limit, no static rule is broken, and each test and each predicate is one that patterns have.
//! Which variables and functions are declared is not known here, so the rules on their names are
//! the callers'.
//!
//! Example: `a/b[1] | //@c` spells two alternatives, `a union b` breaks XTSE0340, and `a[$x]`
//! breaks XTUN0001.
#![tactic(auto)]

mod alternatives;
mod laws;
mod names;
mod parts;
pub mod pattern_priorities;
pub mod pattern_readings;
mod patterns;
mod tests_of_steps;

pub use expr_resolve;
pub use laws::{
    a_pattern_nests_as_its_predicates, breaks_what_its_steps_break, no_pattern_begins_with_key,
    reads_what_is_spelled, spells_one,
};
pub use patterns::{LIMIT, parse_pattern};
