// What the links of a module are.
use doc_reader::Scoped;
use sheet_modules::Link;
use std::alloc::{AllocError, Global};
use xt_names::List;

/// What tells the links of a module: its elements `xsl:import` and `xsl:include` (XSLT 2.0, 3.10).
pub trait LinkReader {
    ghost use Rattle.std.specs.Prelude.{◌≡◌, IfOk, List as Items};
    ghost use Rattle.doc_reader.specs.declared.Scoped.{Scoped as AnyScoped};
    ghost use Rattle.sheet_modules.specs.declared.links.Link.{Link as AnyLink};

    /// The links of a module.
    ghost links: { Self → AnyScoped → Items AnyLink };

    /// The links of the module, in order.
    fn links_of(&self, alloc: Global, scoped: &Scoped) -> Result<List<Link>, AllocError>
        ensures { IfOk result (λ found. found ≡ links self.now scoped.now) };
}
