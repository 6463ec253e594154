//! Loads a stylesheet with all modules that it imports and includes (XSLT 2.0, 3.10).
//!
//! `load_sheet` gives the stylesheet of a file name exactly where all its modules load, are
//! documents and break no rule. Such a stylesheet is closed. Each module is loaded, and its text
//! is read as a tree, depth first in the order of links, before any rule but those on links is
//! looked at. Then come the rules that a module breaks by itself, module by module in that order,
//! and then those that all modules break together. `load_with_modules` gives the modules besides.
//!
//! Example: where `s.xsl` imports `a.xsl`, which imports `s.xsl`, the stylesheet `s.xsl` is refused
//! with XTSE0210, whatever else is wrong in it.
#![tactic(auto)]

pub mod closed_stylesheets;
pub mod good_stylesheets;
mod laws;
mod links;
mod loads;

pub use laws::{sheets_are_closed, sheets_are_one};
pub use links::SheetLinks;
pub use loaded_sheets;
pub use loads::{ReadSheet, load_sheet, load_with_modules};
pub use module_loading::{LoadedModule, LoadedSheet, SheetFault};
