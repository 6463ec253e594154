//! The bytes of a tree: XML in UTF-8 (XSLT 2.0 and XQuery 1.0 Serialization, 5).
//!
//! `write_tree` takes any tree but a lone attribute, which has no text and is refused with SENR0001. The text begins with the
//! XML declaration; nothing is indented and nothing is added after the tree. Declarations of namespaces are made where they
//! are needed, and names keep their prefixes where that is possible.
//!
//! `write_items` first joins items as the content of a document, and refuses them where there is an attribute. Both have a
//! form without the XML declaration, `write_tree_bare` and `write_items_bare`.
//!
//! Example: the document of the element `a` of no namespace with the attribute `k="<"` and no children becomes
//! `<?xml version="1.0" encoding="UTF-8"?><a k="&lt;"/>`.
#![tactic(auto)]

mod causes;
mod escapes;
mod heads;
mod item_writers;
mod plain;
mod scopes;
mod used;
mod writers;

pub use causes::WriteRefusal;
pub use item_writers::{write_items, write_items_bare};
pub use writers::{write_tree, write_tree_bare};
