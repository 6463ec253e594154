//! A stylesheet as the standard sees it (XSLT 2.0, 4.2): comments and processing instructions are
//! gone, texts that then touch are one, and texts of white space alone stand in `xsl:text` only.
//! Each element carries the namespace declarations that are written on it.
//!
//! `clean` makes these nodes of a tree in one walk. `split_front` parts the content of an element
//! as the table of elements says: sort keys before a sequence constructor, parameters before it.
//!
//! Example: `<a> <!--c--> b <xsl:text> </xsl:text></a>` holds the text ` b ` with the spaces that
//! touch it, and then `xsl:text` with its space.

mod nodes;
mod parts;
mod pending;

pub use nodes::{Node, clean};
pub use parts::{
    check_none, is_sort, is_variable, is_with_param, misplaced_node, split_front, xsl_of,
};
