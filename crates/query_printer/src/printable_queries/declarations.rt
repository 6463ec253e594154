// Variables and functions.
ghost use Rattle.std.specs.Prelude.{◌≡◌, map, IfOk};
ghost use Rattle.printed_laws.specs.QueryRaws.Declarations.{is_clean, typed_can, value_can, params_can};
ghost use Rattle.printed_laws.specs.QueryRaws.Declarations.{variable, function};
ghost use Rattle.printed_laws.specs.QueryRaws.Queries.{all_can};

use expr_drafts::name_prefixes::NamePrefixes;
use kept_rules::keeps_rules;
use printable_forms::{can_be_printed, has_function, has_kind, has_name};
use std::alloc::{AllocError, Global};
use xt_names::ExprName;
use xt_syntax::{Expr, QueryFunction, QueryParam, QueryVar};
use xt_types::SeqType;

/// An expression that can be printed and breaks no rule.
pub(crate) fn is_clean(alloc: Global, prefixes: &NamePrefixes, e: &Expr) -> Result<bool, AllocError>
    ensures { IfOk result (λ clean. clean ≡ is_clean prefixes.now e.now) }
{
    Ok(can_be_printed(alloc, prefixes, e)? && keeps_rules(alloc, e)?)
}

/// `$v as T`.
fn can_typed(
    alloc: Global,
    prefixes: &NamePrefixes,
    name: &ExprName,
    kind: &Option<SeqType>,
) -> Result<bool, AllocError>
    ensures { IfOk result (λ can. can ≡ typed_can prefixes.now name.now kind.now) }
{
    Ok(has_name(alloc, prefixes, name)? && has_kind(alloc, prefixes, kind)?)
}

fn can_value(
    alloc: Global,
    prefixes: &NamePrefixes,
    value: &Option<Expr>,
) -> Result<bool, AllocError>
    ensures { IfOk result (λ can. can ≡ value_can prefixes.now value.now) }
{
    match value {
        None => Ok(true),
        Some(e) => is_clean(alloc, prefixes, e),
    }
}

/// `declare variable $v as T := a`.
fn can_variable(
    alloc: Global,
    prefixes: &NamePrefixes,
    declared: &QueryVar,
) -> Result<bool, AllocError>
    ensures { IfOk result (λ can. can ≡ (variable prefixes.now declared.now).can) }
{
    Ok(
        can_typed(alloc, prefixes, &declared.name, &declared.kind)?
            && can_value(alloc, prefixes, &declared.value)?,
    )
}

pub(crate) fn can_variables(
    alloc: Global,
    prefixes: &NamePrefixes,
    variables: &[QueryVar],
) -> Result<bool, AllocError>
    ensures { IfOk result (λ can. can
        ≡ all_can (map (λ v. variable prefixes.now v) variables.now)) }
{
    for declared in variables {
        if !can_variable(alloc, prefixes, declared)? {
            return Ok(false);
        }
    }
    Ok(true)
}

fn can_params(
    alloc: Global,
    prefixes: &NamePrefixes,
    params: &[QueryParam],
) -> Result<bool, AllocError>
    ensures { IfOk result (λ can. can ≡ params_can prefixes.now params.now) }
{
    for param in params {
        if !can_typed(alloc, prefixes, &param.name, &param.kind)? {
            return Ok(false);
        }
    }
    Ok(true)
}

/// `declare function f($a as T, ..) as T { a }`.
fn can_function(
    alloc: Global,
    prefixes: &NamePrefixes,
    declared: &QueryFunction,
) -> Result<bool, AllocError>
    ensures { IfOk result (λ can. can ≡ (function prefixes.now declared.now).can) }
{
    Ok(
        has_function(alloc, prefixes, &declared.name)?
            && (can_params(alloc, prefixes, declared.params.as_slice())?
                && (has_kind(alloc, prefixes, &declared.kind)?
                    && is_clean(alloc, prefixes, &declared.body)?)),
    )
}

pub(crate) fn can_functions(
    alloc: Global,
    prefixes: &NamePrefixes,
    functions: &[QueryFunction],
) -> Result<bool, AllocError>
    ensures { IfOk result (λ can. can
        ≡ all_can (map (λ f. function prefixes.now f) functions.now)) }
{
    for declared in functions {
        if !can_function(alloc, prefixes, declared)? {
            return Ok(false);
        }
    }
    Ok(true)
}
