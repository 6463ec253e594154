//! Node tests: which nodes and names pass them (XPath 2.0, 3.2.1.2 and 2.5.3).
//!
//! Names are compared by uri and local part, never by prefix. A name test on the attribute axis means attributes with such
//! a name, and on each other axis elements; `element(..)` and `attribute(..)` mean the same on every axis. No call takes
//! memory.
//!
//! Example: at `<a x="1"/>` the test `*` passes the element on the child axis, and its attribute on the attribute axis
//! alone; `attribute(*)` passes the attribute on the axis `self` too.
#![tactic(auto)]

mod names;
mod nodes;
mod trees;

pub use names::passes_name;
pub use nodes::{attribute_passes, node_passes, spot_passes};
pub use trees::passes;
pub use xt_tree;
pub use xt_types;
