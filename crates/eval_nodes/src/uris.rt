// The namespaces that a computed name may use.
ghost use Rattle.std.specs.Prelude.{◌≡◌, IfOk};
ghost use Rattle.std.specs.Str.{chars};
ghost use Rattle.expr_meaning.specs.Names.{namespace_of, predeclared};

use std::alloc::{AllocError, Global};
use xt_names::{Binding, Text, is_ascii_text};

/// The uri of a prefix: that of the first binding, or of the namespaces that every query has
/// (XQuery 1.0, 2.1.1); empty where it is not declared.
pub(crate) fn namespace_of(
    alloc: Global,
    namespaces: &[Binding],
    prefix: &str,
) -> Result<Text, AllocError>
    ensures { IfOk result (λ uri. uri ≡ namespace_of namespaces.now (chars prefix.now)) }
{
    for binding in namespaces {
        if binding.prefix.is(prefix) {
            return binding.uri.copy();
        }
    }
    Text::make(alloc, predeclared(prefix))
}

#[tactic(auto, using(crate::proofs::UriLemmas::no_chars), unfolding(expr_meaning::specs::Names::predeclared))]
fn predeclared(prefix: &str) -> &'static str
    ensures { chars result.now ≡ predeclared (chars prefix.now) }
{
    if is_ascii_text(prefix, "xml") {
        "http://www.w3.org/XML/1998/namespace"
    } else if is_ascii_text(prefix, "xs") {
        "http://www.w3.org/2001/XMLSchema"
    } else if is_ascii_text(prefix, "xsi") {
        "http://www.w3.org/2001/XMLSchema-instance"
    } else if is_ascii_text(prefix, "fn") {
        "http://www.w3.org/2005/xpath-functions"
    } else if is_ascii_text(prefix, "local") {
        "http://www.w3.org/2005/xquery-local-functions"
    } else {
        ""
    }
}
