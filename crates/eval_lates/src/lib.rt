//! Values that are walked on demand, between evaluations (XPath 2.0, 2.3.1).
//!
//! A sequence that no one has walked yet answers how many items it has, whether it has any, and
//! which item is at a place, with no more steps than that takes. Each call gives exactly what
//! the meaning of the expression gives of the whole list.
//!
//! Example: `count(1 to 9223372036854775807)` takes as long as `count(1 to 2)`.
#![tactic(auto)]

mod answers;
mod nexts;
mod places;
mod variables;

pub use answers::late_answer;
pub use eval_scopes;
pub use eval_scopes::{lazy_seq, operator_values};
pub use nexts::late_next;
pub use places::{late_item, late_place};
pub use variables::late_variable;
