//! What steps, paths and primary expressions mean, from what their parts mean (XPath 2.0, 3.1 and
//! 3.2).
//!
//! Each call is total: its value is that of the definition that its contract names, and it fails
//! only where memory runs out. Static rules are those of expr_rules.
//!
//! Example: of the parts `a` and `b`, steps of children, `steps` makes `a/b`.

mod kinds;
mod paths;
mod primaries;
mod tables;
mod walks;

pub use kinds::{named_kind, pi_kind, plain_kind};
pub use paths::{deep_steps, filtered, root_steps, steps};
pub use primaries::{call, literal, only_expr, variable};
pub use tables::path_value;
pub use walks::{attribute_step, axis_step, parent_step, test_step};
