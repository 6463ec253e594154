// The names of attributes.
ghost use Rattle.std.specs.Prelude.{◌≡◌, map, IfOk};
ghost use Rattle.expr_names.specs.Doubles.{names_differ};
ghost use Rattle.raw_laws.specs.CleanRaws.Keeps.{attr_names, kept_attr};

use expr_names::names_differ;
use std::alloc::{AllocError, Global};
use xt_names::{List, Name};
use xt_syntax::DirectAttr;

fn names_of(alloc: Global, attrs: &[DirectAttr]) -> Result<List<Name>, AllocError>
    ensures { IfOk result (λ names. names ≡ attr_names (map kept_attr attrs.now)) }
{
    let mut names = List::new(alloc);
    for attr in attrs {
        names.push(attr.name.copy()?)?;
    }
    Ok(names)
}

/// Whether no two attributes have one name.
pub(crate) fn attrs_differ(alloc: Global, attrs: &[DirectAttr]) -> Result<bool, AllocError>
    ensures { IfOk result (λ differ. differ ≡ names_differ (attr_names (map kept_attr attrs.now))) }
{
    let names = names_of(alloc, attrs)?;
    names_differ(alloc, names.as_slice())
}
