// Names in attributes.
ghost use Rattle.std.specs.Prelude.{◌≡◌, ◌++◌, [], IfOk};
ghost use Rattle.std.specs.Str.{chars};
ghost use Rattle.expr_names.specs.Answers.{Answers};
ghost use Rattle.expr_names.specs.Names.{undeclared_in, expr_name};
ghost use Rattle.sheet_values.specs.Rules.{as_prefix};
ghost use Rattle.sheet_values.specs.Names.{exact_of, written_name, name_meant, name_broken};
ghost use Rattle.sheet_values.specs.Names.{qname_faults, qname_value, is_reserved};
ghost use Rattle.sheet_values.specs.Names.{reserved_broken, declared_broken, declared_faults};
ghost use Rattle.sheet_values.specs.Names.{prefix_broken, function_faults};

use crate::faults::{named_in_scope, refuse_if, sheet_fault};
use bound_prefixes::BoundPrefixes;
use expr_names::{ResolveFault, Written, WrittenTest, expr_name, no_text};
use query_options::written_test;
use std::alloc::{AllocError, Global};
use xt_names::{ExprName, SheetStaticCode, Text, is_ascii_text};

fn exact_of(test: Option<WrittenTest>) -> Option<Written>
    ensures { result ≡ exact_of test }
{
    match test {
        Some(WrittenTest::Exact(written)) => Some(written),
        Some(WrittenTest::Any) | Some(WrittenTest::Prefix(_)) | Some(WrittenTest::Local(_)) => None,
        None => None,
    }
}

/// The QName that the text writes, `n` or `p:n`; None where it writes none (Namespaces in XML 1.0,
/// 4). White space is part of no name.
#[tactic(auto, unfolding(crate::specs::Names::written_name))]
pub fn written_name(alloc: Global, text: &str) -> Result<Option<Written>, AllocError>
    ensures { IfOk result (λ name. name ≡ written_name (chars text.now)) }
{
    let test = written_test(alloc, text)?;
    Ok(exact_of(test))
}

fn in_scope(
    alloc: Global,
    bound: &BoundPrefixes,
    written: &Written,
) -> Result<ExprName, ResolveFault>
    ensures { Answers result (as_prefix (undeclared_in bound.now written.now))
        (expr_name bound.now [] written.now) }
{
    let none = no_text(alloc)?;
    named_in_scope(expr_name(alloc, bound, &none, written))
}

#[tactic(auto, unfolding(crate::specs::Names::name_broken, crate::specs::Names::name_meant))]
fn named(
    alloc: Global,
    bound: &BoundPrefixes,
    written: &Option<Written>,
    code: SheetStaticCode,
) -> Result<ExprName, ResolveFault>
    ensures { Answers result (name_broken code bound.now written.now)
        (name_meant bound.now written.now) }
{
    match written {
        None => Err(sheet_fault(code)),
        Some(written) => in_scope(alloc, bound, written),
    }
}

/// The name that the text means, which has no uri where it has no prefix (XSLT 2.0, 5.1). XTSE0020
/// where the text is no QName, and XTSE0280 where its prefix is not declared.
pub fn qname(alloc: Global, bound: &BoundPrefixes, text: &Text) -> Result<ExprName, ResolveFault>
    ensures { Answers result (qname_faults bound.now text.now) (qname_value bound.now text.now) }
{
    let written = written_name(alloc, text.as_str())?;
    named(alloc, bound, &written, SheetStaticCode::XTSE0020)
}

/// Whether the namespace is reserved in stylesheets (XSLT 2.0, 3.2).
#[tactic(auto, unfolding(crate::specs::Names::is_reserved))]
pub fn is_reserved(uri: &Text) -> bool
    ensures { result ≡ is_reserved uri.now }
{
    let uri = uri.as_str();
    is_ascii_text(uri, "http://www.w3.org/1999/XSL/Transform")
        || is_ascii_text(uri, "http://www.w3.org/2005/xpath-functions")
        || is_ascii_text(uri, "http://www.w3.org/XML/1998/namespace")
        || is_ascii_text(uri, "http://www.w3.org/2001/XMLSchema")
        || is_ascii_text(uri, "http://www.w3.org/2001/XMLSchema-instance")
}

fn check_reserved(name: &ExprName) -> Result<(), ResolveFault>
    ensures { Answers result (reserved_broken name.now) tt }
{
    refuse_if(SheetStaticCode::XTSE0080, is_reserved(&name.uri))
}

fn declared(
    alloc: Global,
    bound: &BoundPrefixes,
    written: &Option<Written>,
    code: SheetStaticCode,
) -> Result<ExprName, ResolveFault>
    ensures { Answers result (declared_broken code bound.now written.now)
        (name_meant bound.now written.now) }
{
    let name = named(alloc, bound, written, code)?;
    check_reserved(&name)?;
    Ok(name)
}

/// The name of what is declared (XSLT 2.0, 5.1). This code where the text is no QName, XTSE0280
/// where its prefix is not declared, and XTSE0080 where its namespace is reserved.
pub fn declared_name(
    alloc: Global,
    bound: &BoundPrefixes,
    text: &Text,
    code: SheetStaticCode,
) -> Result<ExprName, ResolveFault>
    ensures { Answers result (declared_faults code bound.now text.now)
        (qname_value bound.now text.now) }
{
    let written = written_name(alloc, text.as_str())?;
    declared(alloc, bound, &written, code)
}

#[tactic(auto, unfolding(crate::specs::Names::prefix_broken))]
fn check_prefix(written: &Option<Written>) -> Result<(), ResolveFault>
    ensures { Answers result (prefix_broken written.now) tt }
{
    match written {
        None => Ok(()),
        Some(written) => refuse_if(SheetStaticCode::XTSE0740, written.prefix.is_empty()),
    }
}

/// The name of a function of a stylesheet (XSLT 2.0, 10.3). XTSE0740 where it has no prefix; else
/// as `declared_name` has them, XTSE0020 where the text is no QName.
pub fn function_name(
    alloc: Global,
    bound: &BoundPrefixes,
    text: &Text,
) -> Result<ExprName, ResolveFault>
    ensures { Answers result (function_faults bound.now text.now)
        (qname_value bound.now text.now) }
{
    let written = written_name(alloc, text.as_str())?;
    check_prefix(&written)?;
    declared(alloc, bound, &written, SheetStaticCode::XTSE0020)
}
