//! The declarations of one module of a stylesheet (XSLT 2.0, 3.6.2): templates, functions, keys,
//! globals, output and white space, each from its element.
//!
//! `part` gives what a child of the root declares exactly where it breaks no rule by itself, and
//! else the code of the first one. Whether declarations go together, in one module or in several,
//! is not looked at here. Modes and called templates are told by their numbers in the place.
//!
//! Example: `<xsl:template match="a|b" priority="1.5">` declares a template with a rule for each
//! alternative that the reader reads of `a|b`, in the default mode, with the priority of 1,500
//! thousandths; `<xsl:template/>` breaks XTSE0500.
#![tactic(auto, using(expr_names::proofs::Follow::fault_first, expr_names::proofs::Follow::fault_next))]

mod functions;
mod globals;
mod keys;
mod outputs;
mod parameters;
mod templates;
mod tops;

pub use sheet_bodies;
pub use sheet_bodies::sheet_heads;
pub use tops::part;
