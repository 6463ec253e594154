//! Sets of documents by name, which `doc` and `document` read.
//!
//! A `DocSet` holds documents, each under a name of its own, in the order in which they were added.
//! Contracts see it as the list of the names with their trees. A document is found by a table, and
//! its trees are numbered from 1 in this order. `fetch` loads the files of all names.
//!
//! Example: after `set.add("a.xml", tree)?`, which answers 1, `set.find("a.xml")?` is the root of
//! that tree, and `set.find("b.xml")?` is `None`.
#![tactic(auto)]

mod fetches;
mod sets;
pub mod white_space;

pub use fetches::{FetchFault, fetch};
pub use sets::{DocSet, documents_stay_sound};
