// Atomic types.
ghost use Rattle.std.specs.Prelude.{◌≡◌, ◌++◌, [], option_and_then};
ghost use Rattle.expr_names.specs.Answers.{Answers};
ghost use Rattle.expr_names.specs.Names.{undeclared_in, expr_name};
ghost use Rattle.expr_names.specs.Types.{type_named, call_type, type_or_any, cast_broken, known_broken};

use crate::fault::{ResolveFault, static_fault};
use crate::names::{expr_name, no_text};
use crate::written::Written;
use bound_prefixes::BoundPrefixes;
use std::alloc::Global;
use xt_names::{AtomType, ExprName, QueryStaticCode, is_ascii_text};

/// The atomic type that the name means.
#[tactic(auto, unfolding(crate::specs::Types::type_named))]
pub fn type_named(name: &ExprName) -> Option<AtomType>
    ensures { result ≡ type_named name.now }
{
    if !is_ascii_text(name.uri.as_str(), "http://www.w3.org/2001/XMLSchema") {
        return None;
    }
    let local = name.local.as_str();
    if is_ascii_text(local, "string") {
        Some(AtomType::Str)
    } else if is_ascii_text(local, "untypedAtomic") {
        Some(AtomType::Untyped)
    } else if is_ascii_text(local, "integer") {
        Some(AtomType::Int)
    } else if is_ascii_text(local, "boolean") {
        Some(AtomType::Bool)
    } else if is_ascii_text(local, "QName") {
        Some(AtomType::QName)
    } else if is_ascii_text(local, "anyAtomicType") {
        Some(AtomType::Any)
    } else {
        None
    }
}

/// The type to which a call of the name casts (XPath 2.0, 3.10.4).
#[tactic(auto, unfolding(crate::specs::Types::call_type))]
pub fn call_type(name: &ExprName) -> Option<AtomType>
    ensures { result ≡ call_type (type_named name.now) }
{
    match type_named(name) {
        Some(AtomType::Str) => Some(AtomType::Str),
        Some(AtomType::Untyped) => Some(AtomType::Untyped),
        Some(AtomType::Int) => Some(AtomType::Int),
        Some(AtomType::Bool) => Some(AtomType::Bool),
        Some(AtomType::QName) | Some(AtomType::Any) | None => None,
    }
}

/// The type of a cast; XPST0080 where it is xs:anyAtomicType, and XPST0051 where it is another
/// type that no cast is to.
#[tactic(auto, unfolding(crate::specs::Types::cast_broken, crate::specs::Types::type_or_any))]
pub fn cast_type(kind: Option<AtomType>) -> Result<AtomType, ResolveFault>
    ensures { Answers result (cast_broken kind) (type_or_any kind) }
{
    match kind {
        Some(AtomType::Any) => Err(static_fault(QueryStaticCode::XPST0080)),
        None | Some(AtomType::QName) => Err(static_fault(QueryStaticCode::XPST0051)),
        Some(AtomType::Str) => Ok(AtomType::Str),
        Some(AtomType::Untyped) => Ok(AtomType::Untyped),
        Some(AtomType::Int) => Ok(AtomType::Int),
        Some(AtomType::Bool) => Ok(AtomType::Bool),
    }
}

/// The type that a cast names (XPath 2.0, 3.10.2); XPST0081, XPST0080 or XPST0051.
#[tactic(auto, using(crate::proofs::Follow::fault_first, crate::proofs::Follow::fault_next))]
pub fn single_type(
    alloc: Global,
    bound: &BoundPrefixes,
    written: &Written,
) -> Result<AtomType, ResolveFault>
    ensures { Answers result (undeclared_in bound.now written.now ++ cast_broken (type_named (expr_name bound.now [] written.now)))
        (type_or_any (type_named (expr_name bound.now [] written.now))) }
{
    let none = no_text(alloc)?;
    let name = expr_name(alloc, bound, &none, written)?;
    cast_type(type_named(&name))
}

#[tactic(auto, unfolding(crate::specs::Types::known_broken, crate::specs::Types::type_or_any))]
fn known_type(kind: Option<AtomType>) -> Result<AtomType, ResolveFault>
    ensures { Answers result (known_broken kind) (type_or_any kind) }
{
    match kind {
        None => Err(static_fault(QueryStaticCode::XPST0051)),
        Some(kind) => Ok(kind),
    }
}

/// The type of an item that the name means (XPath 2.0, 2.5.3); XPST0081 or XPST0051.
#[tactic(auto, using(crate::proofs::Follow::fault_first, crate::proofs::Follow::fault_next))]
pub fn atomic_type(
    alloc: Global,
    bound: &BoundPrefixes,
    written: &Written,
) -> Result<AtomType, ResolveFault>
    ensures { Answers result (undeclared_in bound.now written.now ++ known_broken (type_named (expr_name bound.now [] written.now)))
        (type_or_any (type_named (expr_name bound.now [] written.now))) }
{
    let none = no_text(alloc)?;
    let name = expr_name(alloc, bound, &none, written)?;
    known_type(type_named(&name))
}
