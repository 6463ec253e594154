//! The operators of expressions on values that are evaluated already (XPath 2.0, 3.3 to 3.5 and
//! 3.10).
//!
//! Each call answers exactly the value, or the code of the first error, that its definition in
//! `specs/` gives; only want of memory is left open. The left operand is settled whole before the
//! right one.
//!
//! Example: `general(alloc, CompareOp::Lt, ..)` of the lists `1, 5` and `3` is the list of true,
//! and `single` of them fails with XPTY0004.
#![tactic(auto)]

mod comparisons;
mod node_operators;
mod node_sets;
mod numbers;
mod operands;
mod types;

pub use comparisons::{general, single};
pub use lazy_seq;
pub use node_operators::{after, before, is};
pub use node_sets::{are_nodes, except, in_order, intersect, union};
pub use numbers::{arithmetic, negated, range, signed};
pub use operands::atom_of;
pub use types::{cast_list, castable_list, instance, treated};
pub use xdm_items;
