//! What the grammar of expressions leaves to its values (XQuery 1.0, 3.7.1): the end tag of a
//! direct element has the name of its start tag, letter by letter, and no attribute is `xmlns` or
//! has that prefix.
//!
//! Example: what is read of `<a></a>` is shaped, and what is read of `<a></b>` or of `<a
//! xmlns="u"/>` is not.

mod shapes;

pub use shapes::{Shape, Tag, is_shaped};
