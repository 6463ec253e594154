//! Functions on the names of nodes and on QNames (XQuery 1.0 and XPath 2.0 Functions and
//! Operators, 2.1, 11 and 14).
//!
//! Each call takes the arguments of a function as lists of items, converts them in turn to the
//! types of the parameters and answers exactly what its definition in `specs/` says: the value,
//! or the code of the first error. Only want of memory is left open. The target of a processing
//! instruction is its local name, and uris are given as texts.
//!
//! Example: `name` of the element `<p:a xmlns:p="urn:p"/>` is `"p:a"`, and `qname` of `"urn:p"`
//! and `"p:a"` is its name.

mod names;
mod parts;
mod qnames;

pub use names::{local_name, name, namespace_uri, node_name};
pub use parts::{local_name_from_qname, namespace_uri_from_qname, prefix_from_qname};
pub use qnames::qname;
