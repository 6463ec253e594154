//! Which parts of stylesheets may stand where they do, as a closed stylesheet has them.
//!
//! `parts_stand` is exact: the definition of its name in `specs/Sheets.antt` goes over the parts
//! of a stylesheet, `specs/Bodies.antt` over the forms of instructions, `specs/Patterns.antt` says
//! what an alternative of a pattern is, and `specs/Calls.antt` which calls may be in an
//! expression. Names, and which of them are declared, are not told here, but for the names of
//! parameters.
//!
//! Example: a template with `<xsl:comment select="1"/>` may have it; one whose comment has both a
//! `select` and content, or calls current-group() outside of an `xsl:for-each-group`, may not.

mod bodies;
mod calls;
mod patterns;
mod sheets;
mod values;

pub use bodies::{body_stands, params_stand};
pub use calls::expr_stands;
pub use patterns::is_alternative;
pub use sheets::parts_stand;
