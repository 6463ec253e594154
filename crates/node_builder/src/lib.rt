//! Makes nodes of the items that constructors give.
//!
//! A `Builder` makes one tree after another, each with the next number. An element or a document takes items as complex
//! content: atoms become texts, documents become their children, texts merge, and attributes stand at the front. On
//! attributes `Duplicates::KeepLast` has the rules of stylesheets, and `Duplicates::Refuse` those of queries. `simple` is
//! the one text that items give. Subtrees are shared and not copied.
//!
//! Example: the content of the atoms 1 and 2, the element `<b/>` and the text `x` gives the children `1 2`, `<b/>`
//! and `x`.
#![tactic(auto)]

mod attributes;
mod builders;
mod contents;
mod faults;
mod kinds;
mod simple_contents;
mod texts;
mod trees;

pub use builders::Builder;
pub use contents::{Content, content_of};
pub use faults::BuildFault;
pub use kinds::{Duplicates, Holder};
pub use simple_contents::simple;
