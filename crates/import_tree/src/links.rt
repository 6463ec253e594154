// The links of modules.
ghost use Rattle.import_tree.specs.Sheets.{sheet_links};

use doc_reader::Scoped;
use module_loading::LinkReader;
use module_loading::module_reader::links_of;
use sheet_modules::Link;
use std::alloc::{AllocError, Global};
use xt_names::List;

/// What tells the links of a module: the children `xsl:import` and `xsl:include` of its root that
/// have an `href` (XSLT 2.0, 3.10).
#[derive(Drop)]
pub struct SheetLinks {}

impl LinkReader for SheetLinks {
    ghost use Rattle.import_tree.specs.Sheets.{sheet_links};

    ghost links = { λ reader. sheet_links };

    fn links_of(&self, alloc: Global, scoped: &Scoped) -> Result<List<Link>, AllocError> {
        links_of(alloc, scoped)
    }
}
