// How names are resolved after the setters.
ghost use Rattle.std.specs.Prelude.{◌≡◌, ◌++◌, ◌∷◌, [], IfOk, IsTrue, nat_lt, codes, not};
ghost use Rattle.std.specs.List.{list_all};
ghost use Rattle.query_resolve.specs.QueryPrologs.Prefixes.{declared_bindings, predeclared, element_default, function_default, is_stripped, element_or, function_or, strip_or, prefixes_of};
ghost use Rattle.xt_names.specs.ExprNames.{binding};

use bound_prefixes::BoundPrefixes;
use closed_queries::prolog_rules::Setter;
use expr_names::no_text;
use std::alloc::{AllocError, Global};
use xt_names::{Binding, List, Text};
use xt_syntax::Prefixes;

/// The namespaces that the setters declare, in order.
/// (XQuery 1.0, 4.12)
#[tactic(auto, unfolding(crate::specs::QueryPrologs::Prefixes::binding_and))]
pub fn declared_bindings(alloc: Global, setters: &[Setter]) -> Result<List<Binding>, AllocError>
    ensures { IfOk result (λ bound. bound ≡ declared_bindings setters.now) }
{
    let mut bound = List::new(alloc);
    for setter in setters {
        if let Setter::Namespace(binding) = setter {
            bound.push(binding.copy()?)?;
        }
    }
    Ok(bound)
}

#[tactic(auto, using(xt_names::proofs::TextLemmas::ascii_same))]
fn ascii_text(alloc: Global, text: &str) -> Result<Text, AllocError>
    requires { IsTrue (list_all (λ b. nat_lt b 128) text.now) }
    ensures { IfOk result (λ made. made ≡ text.now) }
{
    Text::make(alloc, text)
}

fn with_binding(
    alloc: Global,
    bound: List<Binding>,
    prefix: &str,
    uri: &str,
) -> Result<List<Binding>, AllocError>
    requires prefix { IsTrue (list_all (λ b. nat_lt b 128) prefix.now) }
    requires uri { IsTrue (list_all (λ b. nat_lt b 128) uri.now) }
    ensures { IfOk result (λ more. more ≡ bound ++ binding prefix.now uri.now ∷ []) }
{
    let mut more = bound;
    let prefix = ascii_text(alloc, prefix)?;
    let uri = ascii_text(alloc, uri)?;
    more.push(Binding { prefix, uri })?;
    Ok(more)
}

fn with_predeclared(alloc: Global, bound: List<Binding>) -> Result<List<Binding>, AllocError>
    ensures { IfOk result (λ more. more ≡ bound ++ predeclared) }
{
    let a = with_binding(alloc, bound, "xml", "http://www.w3.org/XML/1998/namespace")?;
    let b = with_binding(alloc, a, "xs", "http://www.w3.org/2001/XMLSchema")?;
    let c = with_binding(alloc, b, "xsi", "http://www.w3.org/2001/XMLSchema-instance")?;
    let d = with_binding(alloc, c, "fn", "http://www.w3.org/2005/xpath-functions")?;
    with_binding(
        alloc,
        d,
        "local",
        "http://www.w3.org/2005/xquery-local-functions",
    )
}

#[tactic(auto, unfolding(crate::specs::QueryPrologs::Prefixes::element_or))]
fn element_default(alloc: Global, setters: &[Setter]) -> Result<Text, AllocError>
    ensures { IfOk result (λ uri. uri ≡ element_default setters.now) }
{
    for setter in setters {
        if let Setter::ElementDefault(uri) = setter {
            return uri.copy();
        }
    }
    no_text(alloc)
}

#[tactic(auto, unfolding(crate::specs::QueryPrologs::Prefixes::function_or))]
fn function_default(alloc: Global, setters: &[Setter]) -> Result<Text, AllocError>
    ensures { IfOk result (λ uri. uri ≡ function_default setters.now) }
{
    for setter in setters {
        if let Setter::FunctionDefault(uri) = setter {
            return uri.copy();
        }
    }
    ascii_text(alloc, "http://www.w3.org/2005/xpath-functions")
}

/// Whether boundary white space is stripped (XQuery 1.0, 4.3).
#[tactic(auto, unfolding(crate::specs::QueryPrologs::Prefixes::strip_or))]
pub fn is_stripped(setters: &[Setter]) -> bool
    ensures { result ≡ is_stripped setters.now }
{
    for setter in setters {
        if let Setter::BoundarySpace(preserve) = setter {
            return !*preserve;
        }
    }
    true
}

/// How prefixes, and names without one, are resolved after the setters.
/// (XQuery 1.0, 4.12 and 4.13)
pub fn prefixes_of(alloc: Global, setters: &[Setter]) -> Result<Prefixes, AllocError>
    ensures { IfOk result (λ prefixes. prefixes ≡ prefixes_of setters.now) }
{
    let declared = declared_bindings(alloc, setters)?;
    Ok(Prefixes {
        bound: BoundPrefixes::new(with_predeclared(alloc, declared)?)?,
        element_default: element_default(alloc, setters)?,
        function_default: function_default(alloc, setters)?,
    })
}
