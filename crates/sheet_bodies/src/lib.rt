//! Sequence constructors (XSLT 2.0, 5.7): the instructions that the nodes of a stylesheet are.
//!
//! `read_body` gives the instructions exactly where no rule is broken, and else the code of the
//! first one in the order of the document. Each instruction that holds others takes a level, and so
//! does each `xsl:variable` of those after it; where none is left an instruction breaks XTLM0004.
//! What texts mean is the reader's.
//!
//! Example: `<xsl:if test="a">b</xsl:if>` is the instruction If of what the reader reads of `a` and
//! the characters `b`; `<xsl:choose/>` breaks XTSE0010.
#![tactic(auto, using(expr_names::proofs::Follow::fault_first, expr_names::proofs::Follow::fault_next))]

mod bodies;
mod parts;

pub use bodies::{read_body, read_bound};
pub use parts::{is_none, with_item};
pub use sheet_heads;
