// Names and types, whether or not their prefixes are declared.
ghost use Rattle.std.specs.Prelude.{◌≡◌, [], IfOk};
ghost use Rattle.expr_names.specs.Names.{uri_in, name_test, expr_name};
ghost use Rattle.xt_names.specs.ExprNames.{uri_of};
ghost use Rattle.expr_names.specs.Types.{type_or_any};
ghost use Rattle.expr_rules.specs.Known.{name_of, node_name_of, name_test_of, named_type, type_of};

use crate::expr_meant::{Meant, written_of, written_test_in};
use bound_prefixes::BoundPrefixes;
use expr_names::xt_types::NameTest;
use expr_names::{Written, WrittenTest, no_text, type_named, uri_of};
use std::alloc::{AllocError, Global};
use xt_names::{AtomType, ExprName, Name, Text};

#[tactic(auto, unfolding(expr_names::specs::Names::uri_in))]
fn uri_in(
    alloc: Global,
    bound: &BoundPrefixes,
    default: &Text,
    written: &Written,
) -> Result<Text, AllocError>
    ensures { IfOk result (λ uri. uri ≡ uri_in bound.now default.now written.now) }
{
    if written.prefix.is_empty() {
        return default.copy();
    }
    uri_of(alloc, bound, &written.prefix)
}

fn known_name(
    alloc: Global,
    bound: &BoundPrefixes,
    default: &Text,
    written: Written,
) -> Result<ExprName, AllocError>
    ensures { IfOk result (λ name. name ≡ expr_name bound.now default.now written) }
{
    let uri = uri_in(alloc, bound, default, &written)?;
    Ok(ExprName {
        uri,
        local: written.local,
    })
}

/// The name of a variable, a function or a type that the part writes.
pub fn name_of(
    alloc: Global,
    bound: &BoundPrefixes,
    default: &Text,
    part: &Meant,
) -> Result<ExprName, AllocError>
    ensures { IfOk result (λ name. name ≡ name_of bound.now default.now part.now) }
{
    let written = written_of(alloc, part)?;
    known_name(alloc, bound, default, written)
}

/// The name of a node that the part writes.
pub fn node_name_of(
    alloc: Global,
    bound: &BoundPrefixes,
    default: &Text,
    part: &Meant,
) -> Result<Name, AllocError>
    ensures { IfOk result (λ name. name ≡ node_name_of bound.now default.now part.now) }
{
    let written = written_of(alloc, part)?;
    let uri = uri_in(alloc, bound, default, &written)?;
    Ok(Name {
        prefix: written.prefix,
        uri,
        local: written.local,
    })
}

fn bare_name(alloc: Global, bound: &BoundPrefixes, written: Written) -> Result<ExprName, AllocError>
    ensures { IfOk result (λ name. name ≡ expr_name bound.now [] written) }
{
    let none = no_text(alloc)?;
    known_name(alloc, bound, &none, written)
}

#[tactic(auto, unfolding(expr_names::specs::Names::name_test))]
fn known_test(
    alloc: Global,
    bound: &BoundPrefixes,
    written: WrittenTest,
) -> Result<NameTest, AllocError>
    ensures { IfOk result (λ made. made ≡ name_test bound.now written) }
{
    match written {
        WrittenTest::Any => Ok(NameTest::Any),
        WrittenTest::Prefix(prefix) => Ok(NameTest::Uri(uri_of(alloc, bound, &prefix)?)),
        WrittenTest::Local(local) => Ok(NameTest::Local(local)),
        WrittenTest::Exact(written) => Ok(NameTest::Exact(bare_name(alloc, bound, written)?)),
    }
}

/// The name test that the part writes, in which a name without a prefix has no uri.
#[tactic(auto, unfolding(crate::specs::Known::name_test_of))]
pub fn name_test_of(
    alloc: Global,
    bound: &BoundPrefixes,
    part: &Meant,
) -> Result<NameTest, AllocError>
    ensures { IfOk result (λ made. made ≡ name_test_of bound.now part.now) }
{
    match part {
        Meant::Token(token) => {
            let written = written_test_in(alloc, token)?;
            known_test(alloc, bound, written)
        }
        _ => Ok(NameTest::Any),
    }
}

/// The atomic type that the part names.
pub(crate) fn named_type(
    alloc: Global,
    bound: &BoundPrefixes,
    part: &Meant,
) -> Result<Option<AtomType>, AllocError>
    ensures { IfOk result (λ kind. kind ≡ named_type bound.now part.now) }
{
    let written = written_of(alloc, part)?;
    let name = bare_name(alloc, bound, written)?;
    Ok(type_named(&name))
}

#[tactic(auto, unfolding(expr_names::specs::Types::type_or_any))]
fn type_or_any(kind: Option<AtomType>) -> AtomType
    ensures { result ≡ type_or_any kind }
{
    match kind {
        None => AtomType::Any,
        Some(kind) => kind,
    }
}

/// The atomic type that the part names, and xs:anyAtomicType where it names none.
pub fn type_of(alloc: Global, bound: &BoundPrefixes, part: &Meant) -> Result<AtomType, AllocError>
    ensures { IfOk result (λ kind. kind ≡ type_of bound.now part.now) }
{
    Ok(type_or_any(named_type(alloc, bound, part)?))
}
