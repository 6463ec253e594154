//! Which expressions may be predicates of patterns (XSLT 2.0, 5.5.2).
//!
//! `is_pattern_predicate` is exact. A quiet predicate may be one, and so may one in which, as one of
//! the conjuncts at its top, an attribute is compared with an integer.
//!
//! Example: `@k = "a" and position() < 3` and `@k = 1 and b` may be predicates of a pattern; `$x`
//! and `@k = 1 or b` may not.
#![tactic(auto)]

mod combined;
mod forms;
pub mod pattern_shapes;
mod predicates;

pub use forms::PredicateForm;
pub use predicates::{are_pattern_predicates, is_pattern_predicate};
