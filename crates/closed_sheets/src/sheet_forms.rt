//! What forms instructions and stylesheets have: how deep they nest.
//!
//! Each function is exact: its contract names a definition in `specs/` that goes over the forms one by one.
//!
//! Example: `<xsl:variable name="x" select="1"/><a/>` nests 2 levels, since `a` comes after a variable.

mod nesting;
mod sheets;

pub use nesting::{nest_body, nest_bound, nest_instruction};
pub use sheets::nest_sheet;
