//! What operators, lists, conditionals, bindings and types mean, from what their parts mean (XPath
//! 2.0, 3.3 to 3.10; XQuery 1.0, 3.8).
//!
//! Each call is total: its value is that of the definition that its contract names, and it fails
//! only where memory runs out. Static rules are those of expr_rules.
//!
//! Example: of the parts `1`, `- 2` and `- 3`, `chained` makes `(1 - 2) - 3`.
#![tactic(auto)]

mod bindings;
mod chains;
mod flwors;
mod lists;
mod operators;
mod orders;
mod tables;
mod types;

pub use bindings::{for_bind, let_bind, placed, quant_bind};
pub use chains::{chained, operated, signed};
pub use flwors::{clauses_in, flwor};
pub use lists::{conditional, listed, quantified};
pub use orders::{key_spec, orders_in};
pub use tables::control_value;
pub use types::{marked, sequence_of, single, typed};
