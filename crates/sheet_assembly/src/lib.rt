//! One stylesheet of the declarations of all its modules (XSLT 2.0, 3.10.3).
//!
//! `assemble` takes the declarations in the order of precedence and gives the `Sheet`: of the
//! declarations that replace one another the last alone; the templates that are called, by their
//! numbers, and then the others; the template rules by precedence and then in declaration order;
//! the rules on white space from the one that decides first. It breaks no rule and tests none.
//! `ordered` puts globals in an order.
//!
//! Example: where `s.xsl` imports `a.xsl`, both declare a template named `t`, and that of `a.xsl`
//! matches `a`, the rule of `a.xsl` stands first, with precedence 1, and its template has no name.
#![tactic(auto)]

mod declared;
mod sheets;
mod spaces;
mod templates;

pub use declared::ordered;
pub use sheets::assemble;
