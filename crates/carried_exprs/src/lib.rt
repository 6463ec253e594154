//! The expressions of a stylesheet as its query has them: definitions, and laws of their form.
//!
//! In a query that stands for a stylesheet the focus, the current item and the current group of the
//! stylesheet are what variables hold. `carried` is an expression of the stylesheet with what reads
//! them replaced: `.` by a variable, a step from the focus by a path from that variable, `position()`
//! by a variable, `current()` and the current group by variables everywhere, `key()` by a call of a
//! function that takes the item first. Within a predicate and right of `/` the focus is the query's
//! own, and stays.
//!
//! Example: `a[b = current()/c]` becomes `$x:item/a[b = $x:item/c]`.
#![tactic(auto)]

mod laws;

pub use laws::{carried_expressions_are_regular, carried_expressions_nest_two_levels_more_at_most};
