//! The names and types that the parts of expressions mean, and the static rules that parts break
//! where they stand (XPath 2.0, 2.1.1, 2.5 and 3.2.1.1; XQuery 1.0, 3.7.1.1).
//!
//! The first are total: a prefix that is not declared has no uri there. The tests of rules pass
//! exactly where no rule is broken, and else answer the code of the first broken one.
//!
//! Example: the token `q:a`, whose prefix is not declared, means the name `a` without a uri, and as
//! the part of a variable it breaks XPST0081.
#![tactic(auto)]

pub mod expr_meant;
pub mod expr_shapes;
mod known;
mod rules;
mod tables;
mod whole;

pub use expr_names;
pub use expr_terms;
pub use known::{name_of, name_test_of, node_name_of, type_of};
pub use rules::{axis_rule, cast_rule, name_rule, test_rule, type_rule};
pub use tables::own_rule;
pub use whole::{args_of, doubles_rule, end_rule};
