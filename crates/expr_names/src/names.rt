// Prefixes and names.
ghost use Rattle.std.specs.Prelude.{◌≡◌, [], IfOk};
ghost use Rattle.expr_names.specs.Answers.{Answers};
ghost use Rattle.expr_names.specs.Names.{uri_in, undeclared, undeclared_in, expr_name, node_name};
ghost use Rattle.xt_names.specs.ExprNames.{uri_of};

use crate::fault::{ResolveFault, static_fault};
use crate::written::Written;
use bound_prefixes::BoundPrefixes;
use std::alloc::{AllocError, Global};
use xt_names::{ExprName, Name, QueryStaticCode, Text, TextBuilder};

/// The empty text.
pub fn no_text(alloc: Global) -> Result<Text, AllocError>
    ensures { IfOk result (λ text. text ≡ []) }
{
    TextBuilder::new(alloc).finish()
}

/// The uri of a prefix, by its first binding; the empty text where it is bound to none (XPath 2.0,
/// 2.1.1).
pub fn uri_of(alloc: Global, bound: &BoundPrefixes, prefix: &Text) -> Result<Text, AllocError>
    ensures { IfOk result (λ uri. uri ≡ uri_of bound.now prefix.now) }
{
    match bound.uri_of(prefix) {
        Some(uri) => uri.copy(),
        None => no_text(alloc),
    }
}

/// The uri of a prefix; XPST0081 where the prefix is not declared.
#[tactic(auto, unfolding(crate::specs::Names::undeclared))]
pub fn declared_uri(
    alloc: Global,
    bound: &BoundPrefixes,
    prefix: &Text,
) -> Result<Text, ResolveFault>
    ensures { Answers result (undeclared bound.now prefix.now) (uri_of bound.now prefix.now) }
{
    let uri = uri_of(alloc, bound, prefix)?;
    if uri.is_empty() {
        return Err(static_fault(QueryStaticCode::XPST0081));
    }
    Ok(uri)
}

/// The uri of a name, which is `default` where the name has no prefix; XPST0081 where the prefix
/// is not declared.
#[tactic(auto, unfolding(crate::specs::Names::undeclared_in, crate::specs::Names::uri_in))]
pub fn uri_in(
    alloc: Global,
    bound: &BoundPrefixes,
    default: &Text,
    written: &Written,
) -> Result<Text, ResolveFault>
    ensures { Answers result (undeclared_in bound.now written.now) (uri_in bound.now default.now written.now) }
{
    if written.prefix.is_empty() {
        let uri = default.copy()?;
        return Ok(uri);
    }
    declared_uri(alloc, bound, &written.prefix)
}

/// The name of a variable, a function or a type; XPST0081 where its prefix is not declared.
pub fn expr_name(
    alloc: Global,
    bound: &BoundPrefixes,
    default: &Text,
    written: &Written,
) -> Result<ExprName, ResolveFault>
    ensures { Answers result (undeclared_in bound.now written.now) (expr_name bound.now default.now written.now) }
{
    let uri = uri_in(alloc, bound, default, written)?;
    let local = written.local.copy()?;
    Ok(ExprName { uri, local })
}

/// The name that a node is to have; XPST0081 where its prefix is not declared.
pub fn node_name(
    alloc: Global,
    bound: &BoundPrefixes,
    default: &Text,
    written: &Written,
) -> Result<Name, ResolveFault>
    ensures { Answers result (undeclared_in bound.now written.now) (node_name bound.now default.now written.now) }
{
    let uri = uri_in(alloc, bound, default, written)?;
    let prefix = written.prefix.copy()?;
    let local = written.local.copy()?;
    Ok(Name { prefix, uri, local })
}
