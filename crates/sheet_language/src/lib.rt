//! The reader of the texts of stylesheets: expressions, patterns and sequence types (XSLT 2.0, 5.2
//! and 5.5).
//!
//! `SheetLanguage` is a `Reader` over the parsers, so what is read of a stylesheet with it is exact:
//! `specs/Language.antt` says by functions of place and text what a text means and which rules it
//! breaks there. A text that spells nothing breaks XPST0003, one that nests deeper than 40 levels
//! XTLM0004, one with a call that may not stand where it does XTUN0001; else the codes are those of
//! the parsers. Names without prefix are in no namespace, and functions without one are in that of the
//! functions of XPath. Whether variables and functions are declared is not told here.
//!
//! Example: `current-group()` breaks XTUN0001 outside of an `xsl:for-each-group`, the pattern `a +`
//! breaks XPST0003, and the type `xs:date` breaks XPST0051.
#![tactic(auto)]

mod expressions;
mod language;
mod laws;
mod patterns;
mod settings;
mod types;

pub use language::SheetLanguage;
pub use laws::expressions_mean_what_is_spelled;
