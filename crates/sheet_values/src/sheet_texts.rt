//! What is in the texts of a stylesheet: attribute value templates, and, through a `Reader`,
//! expressions, patterns and types (XSLT 2.0, 5).
//!
//! A `StaticContext` is what is known where a text stands. A `Reader` says what a text means there,
//! by one
//! function for the value and one for the rules that it breaks; so what is read of a stylesheet is
//! exact over any reader. Each call gives the value exactly where no rule is broken, and else the
//! code of the first one.
//!
//! Example: `a{{{$x}` is the template of the characters `a{` and the expression that the reader
//! reads of `$x`; `{$x` breaks XTSE0350, and `}` breaks XTSE0370.
#![tactic(auto, using(expr_names::proofs::Follow::fault_first, expr_names::proofs::Follow::fault_next))]

mod laws;
mod names;
mod places;
mod readers;
mod templates;

pub use laws::templates_mean_their_parts;
pub use names::NameTable;
pub use places::{StaticContext, bound_within};
pub use readers::Reader;
pub use templates::template;
