// Modules as they are loaded, and the levels that they make up.
use doc_reader::Scoped;
use sheet_modules::Link;
use sheet_modules::sheet_levels::SheetLevel;
use xt_names::{List, Shared, Text};

/// A module that is loaded (XSLT 2.0, 3.6).
#[derive(Drop)]
pub struct LoadedModule {
    /// The name of its file.
    pub name: Text,
    /// What its text stands for.
    pub scoped: Scoped,
    /// Its links.
    pub links: Shared<List<Link>>,
}

/// The modules of a stylesheet.
#[derive(Drop)]
pub struct LoadedSheet {
    /// The modules in the order of loading.
    pub modules: List<LoadedModule>,
    /// The levels in the order of precedence, the lowest first.
    pub levels: List<SheetLevel>,
}
