//! One step of a path, walked node by node: the nodes of an axis that pass a test, and those of them that predicates keep in
//! turn (XPath 2.0, 3.2.1).
//!
//! `go_to_hit` and `next_hit` move a cursor on to the next node that passes its test. `raise` counts how many nodes have come to
//! each predicate, so that positions are known without a list of the nodes. `in_order` puts nodes in document order, each once.
//!
//! Example: on the children `b`, `c`, `b` of an element, `next_hit` of a cursor for `b` gives the first `b`, then the second.

mod hits;
mod orders;
mod positions;

pub use hits::{go_to_hit, next_hit};
pub use orders::in_order;
pub use positions::{predicates_in_turn_need_no_list, raise, zeros};
