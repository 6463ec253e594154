//! Indexes of the nodes of a tree by key (XSLT 2.0, 16.3).
//!
//! A `KeyIndex` is made of pairs of a node and a value that the node has for the key, in document
//! order. Contracts see the list of these pairs. A look-up takes the nodes from a table, without a
//! walk over the pairs; where several values are looked up, what is found for them is merged.
//!
//! Example: of the pairs (a, 1), (b, 2) and (b, 1) a look-up of 1 gives the nodes a and b, and one
//! of 2 and 1 too.
#![tactic(auto)]

mod indexes;
mod laws;
mod merges;
mod nodes;

pub use indexes::{KeyIndex, KeyPair};
pub use laws::look_ups_stand_in_document_order;
