//! What holds of all expressions: laws alone, nothing runs.
//!
//! Each form is carried through a relation between outcomes where its parts are. That more calls left
//! change nothing but an outcome that lacked one is such a relation, and that no call is lacked. A
//! relation may be strict: then it carries expressions whose texts and names XML allows.
#![tactic(auto)]

mod laws;

pub use laws::{more_calls_change_nothing_else, where_calls_end_all_ends};
