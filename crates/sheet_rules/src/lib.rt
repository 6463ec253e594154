//! The static rules on names that a whole stylesheet breaks, given what its modules declare (XSLT
//! 2.0, 3.10.3).
//!
//! `push_broken_rules` puts the codes of all broken rules after a list: names that are used and
//! not declared, what is declared twice at one precedence, parameters of calls, calls of functions
//! in keys, and declarations of the output that contradict each other. Declarations that others
//! replace are looked into too.
//!
//! Example: where no function is declared, `<xsl:variable name="v" select="f:g(1)"/>` breaks
//! XPST0017.
#![tactic(auto)]

mod names;
mod rules;
pub mod sheet_declarations;
mod uses;
pub mod wide_rules;

pub use names::{names_of, push_missing};
pub use rules::push_broken_rules;
pub use uses::{key_uses_of, uses_of};
