//! The functions on nodes (XQuery 1.0 and XPath 2.0 Functions and Operators, 14.9 and 15.3.1).
//!
//! `deep_equal` tells exactly whether two sequences are deep-equal, and `root` gives the root of a
//! node. Attributes are compared in any order, by a table where there are many. Stack is taken for
//! each level of the trees, and not for their width.
//!
//! Example: `<a x="1" y="2">t<!--c--></a>` and `<a y="2" x="1">t</a>` are deep-equal.

mod attribute_tables;
mod attributes;
mod deep;
mod roots;

pub use deep::{deep_equal, same_items};
pub use roots::root;
