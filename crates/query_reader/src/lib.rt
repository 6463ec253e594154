//! What the reading of a query asks of the expression that is read: whether an operand may come
//! next, and whether the expression may end here.
//!
//! Where an operand may come next `<` directly before a name begins a direct element (XQuery 1.0,
//! 3.7.1). A few open productions are looked at, those that want nothing more and the first that
//! does.
//!
//! Example: `wants_operand` is true before the first token of an expression and behind `1 +`, and
//! false behind `1`.
#![tactic(auto)]

mod ends;
mod places;
pub mod query_heads;
pub mod query_steps;

pub use ends::may_end;
pub use places::wants_operand;
