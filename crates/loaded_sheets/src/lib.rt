//! One stylesheet of modules that are loaded (XSLT 2.0, 3.10).
//!
//! `read_sheet` gives the stylesheet exactly where the modules break no rule, and else the code of
//! one that is broken: the first one that the first module breaks which breaks one by itself; where
//! there is no such module, the first in the order of `wide_rules` of those that they break
//! together. The globals of the stylesheet stand in the order in which they are evaluated.
//! `whole_sheet` does the same of declarations whose texts are read.
//!
//! Example: where `s.xsl` has `<xsl:variable name="x" select="$y"/>` and imports `a.xsl`, which has
//! `<xsl:variable name="y" select="1"/>`, the globals are `y` and `x`; where `a.xsl` has
//! `select="$x"`, they stand in a circle, which is XTDE0640.
#![tactic(auto, using(expr_names::proofs::Follow::fault_first, expr_names::proofs::Follow::fault_next))]

mod laws;
pub mod loaded_parts;
mod sheets;
mod wholes;

pub use laws::{broken_rules_are_told, globals_stand_in_order, modules_come_first};
pub use module_loading;
pub use sheets::read_sheet;
pub use wholes::whole_sheet;
