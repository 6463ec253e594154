//! The declarations of a stylesheet in the order of import precedence (XSLT 2.0, 3.6.2 and 3.10.3).
//!
//! `declarations` puts those of all modules into one list: the level of the lowest precedence comes
//! first, and within a level they stand in declaration order, those of an included module in its place
//! in the module that includes it. `counted` tells which of them count: a global variable, a function
//! or a named template is replaced by one of the same name further behind, which is one of higher
//! precedence where no rule is broken.
//!
//! Example: where `s.xsl` imports `a.xsl` and both declare the variable `x`, the list has that of
//! `a.xsl` first, in level 1, and it does not count; that of `s.xsl` does.

mod counts;
mod lists;

pub use counts::counted;
pub use lists::{Declaration, declarations};
