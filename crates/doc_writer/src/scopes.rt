ghost use Rattle.std.specs.Prelude.{◌≡◌, IfOk};
ghost use Rattle.doc_writer.specs.Scopes.{first_scope};

use crate::plain::ascii_text;
use name_scopes::NamespaceScope;
use std::alloc::{AllocError, Global};

/// The scope around a tree: `xml` is bound, and the empty prefix to no uri.
pub(crate) fn first_scope(alloc: Global) -> Result<NamespaceScope, AllocError>
    ensures { IfOk result (λ scope. scope ≡ first_scope) }
{
    let mut scope = NamespaceScope::new(alloc);
    let xml = ascii_text(alloc, "http://www.w3.org/XML/1998/namespace")?;
    scope.push(ascii_text(alloc, "xml")?, xml)?;
    let empty = ascii_text(alloc, "")?;
    scope.push(empty.copy()?, empty)?;
    Ok(scope)
}
