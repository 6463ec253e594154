//! What expressions and queries mean (XPath 2.0; XQuery 1.0): definitions alone, nothing runs.
//!
//! `outcome` gives each form of expressions a meaning over the meanings of its parts: how it ends at
//! what it can read, and which number the next tree gets. It takes what a call means as given, so
//! that queries and stylesheets share it; `query_outcome` ties the knot of a query by the number of
//! calls that are left.
//!
//! Example: `1 + 1` ends with the list of 2 everywhere, and uses up no number.
#![tactic(auto)]

mod laws;
pub mod outcomes;
pub mod sort_meaning;

pub use fn_lib;
pub use laws::without_calls_left_a_call_needs_one;
pub use operator_values;
pub use operator_values::lazy_seq;
pub use xdm_items;
