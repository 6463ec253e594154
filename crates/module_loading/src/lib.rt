//! The modules of a stylesheet, loaded and read as text (XSLT 2.0, 3.10).
//!
//! `load_modules` goes over the links depth first, in their order: a module is loaded and its text
//! is read as a tree before its own links are followed, and these before the further links of the
//! module that names it. A link to a module that is being loaded is refused, and so is a 65th
//! module. Which links a module has is told by a `LinkReader`.
//!
//! What comes of it is the modules in the order of loading, and the stylesheet levels in the order
//! of precedence: of each level the pieces of its modules in declaration order, so that an included
//! module is in its place in the module that includes it.
//!
//! Example: where `s.xsl` imports `a.xsl` and then includes `b.xsl`, the modules are `s.xsl`,
//! `a.xsl` and `b.xsl`; the first level is all of `a.xsl`, and the second is `s.xsl` up to the
//! include, then all of `b.xsl`, and then the rest of `s.xsl`.
#![tactic(auto)]

mod faults;
mod files;
pub mod import_levels;
mod laws;
mod loaded;
pub mod module_reader;
mod readers;
mod walk;

pub use faults::SheetFault;
pub use laws::levels_are_those_of_precedence;
pub use loaded::{LoadedModule, LoadedSheet};
pub use readers::LinkReader;
pub use sheet_parts::sheet_bodies;
pub use walk::load_modules;
