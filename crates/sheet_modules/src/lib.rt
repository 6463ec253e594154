//! One module of a stylesheet as it is read, before the modules are put together (XSLT 2.0, 3.6 and
//! 3.10). Types alone.
//!
//! `E` is the type of the expressions, `P` that of the alternatives of patterns. Modes and the
//! templates that are called have numbers of the module's own, which `Module` gives names to.
//!
//! Example: `<xsl:template match="a|b" mode="m"/>` is `Part::Template` of a template without name
//! and of two rules, one for `a` and one for `b`, in the mode whose name `Module::modes` has at the
//! number that the rules say.
#![tactic(auto)]

mod links;
pub mod module_names;
mod modules;
pub mod sheet_levels;
mod templates;

pub use links::Link;
pub use modules::{FunctionPart, GlobalPart, KeyPart, Module, Part};
pub use templates::{ModeSet, RulePart, TemplatePart};
pub use xt_sheets;
