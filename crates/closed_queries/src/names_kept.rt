// What a query declares, and whether it names nothing else.
ghost use Rattle.std.specs.Prelude.{◌≡◌, [], IfOk};
ghost use Rattle.std.specs.List.{list_all};
ghost use Rattle.closed_queries.specs.Closed.{variable_names, are_new_functions, have_different_params, has_different_names, with_functions, keeps_names, if_keeps, value_keeps_names, body_keeps_names, all_keep_names, query_keeps_names};
ghost use Rattle.name_rules.specs.Faults.{first};
ghost use Rattle.name_rules.specs.Scopes.{names_differ, param_names, with_names};

use name_rules::{Functions, VariableScope, broken_names, names_differ, param_names};
use std::alloc::{AllocError, Global};
use xt_names::{ExprName, List};
use xt_syntax::{Expr, Query, QueryFunction, QueryVar};

/// Whether no two variables have one name, no two functions one name and number of parameters, and no two parameters of
/// one function one name.
#[tactic(auto, unfolding(crate::specs::Closed::has_different_names))]
pub(crate) fn has_different_names(query: &Query) -> Result<bool, AllocError>
    ensures { IfOk result (λ differ. differ ≡ has_different_names query.now) }
{
    let names = variable_names(&query.variables)?;
    if !names_differ(&names)? {
        return Ok(false);
    }
    if !are_new_functions(query.functions.allocator(), query.functions.as_slice())? {
        return Ok(false);
    }
    have_different_params(query.functions.as_slice())
}

fn variable_names(variables: &List<QueryVar>) -> Result<List<ExprName>, AllocError>
    ensures { IfOk result (λ names. names ≡ variable_names variables.now) }
{
    let mut names = List::new(variables.allocator());
    for variable in variables.as_slice() {
        names.push(variable.name.copy()?)?;
    }
    Ok(names)
}

fn are_new_functions(alloc: Global, functions: &[QueryFunction]) -> Result<bool, AllocError>
    ensures { IfOk result (λ new. new ≡ are_new_functions [] functions.now) }
{
    let mut declared = Functions::new(alloc);
    for function in functions {
        if !declared.declare(&function.name, function.params.len())? {
            return Ok(false);
        }
    }
    Ok(true)
}

fn have_different_params(functions: &[QueryFunction]) -> Result<bool, AllocError>
    ensures { IfOk result (λ differ. differ ≡ have_different_params functions.now) }
{
    for function in functions {
        let names = param_names(&function.params)?;
        if !names_differ(&names)? {
            return Ok(false);
        }
    }
    Ok(true)
}

/// Whether the query names no variable and calls no function that is not declared in it, bound there or known to all.
#[tactic(auto, unfolding(crate::specs::Closed::query_keeps_names))]
pub(crate) fn query_keeps_names(query: &Query) -> Result<bool, AllocError>
    ensures { IfOk result (λ keeps. keeps ≡ query_keeps_names query.now) }
{
    let names = variable_names(&query.variables)?;
    let scope = VariableScope::new(names.allocator())?.with_all(&names)?;
    let functions = declared_functions(names.allocator(), query.functions.as_slice())?;
    all_keep_names(query, &functions, &scope)
}

fn declared_functions(alloc: Global, functions: &[QueryFunction]) -> Result<Functions, AllocError>
    ensures { IfOk result (λ declared. declared ≡ with_functions [] functions.now) }
{
    let mut declared = Functions::new(alloc);
    for function in functions {
        let _new = declared.declare(&function.name, function.params.len())?;
    }
    Ok(declared)
}

#[tactic(auto, unfolding(crate::specs::Closed::all_keep_names))]
fn all_keep_names(
    query: &Query,
    functions: &Functions,
    scope: &VariableScope,
) -> Result<bool, AllocError>
    ensures { IfOk result (λ keep. keep ≡ all_keep_names functions.now scope.now query.now) }
{
    if !values_keep_names(query.variables.as_slice(), functions, scope)? {
        return Ok(false);
    }
    if !bodies_keep_names(query.functions.as_slice(), functions, scope)? {
        return Ok(false);
    }
    keeps_names(&query.body, functions, scope)
}

fn values_keep_names(
    variables: &[QueryVar],
    functions: &Functions,
    scope: &VariableScope,
) -> Result<bool, AllocError>
    ensures { IfOk result (λ keep. keep ≡ list_all (value_keeps_names functions.now scope.now) variables.now) }
{
    for variable in variables {
        if !value_keeps_names(&variable.value, functions, scope)? {
            return Ok(false);
        }
    }
    Ok(true)
}

fn value_keeps_names(
    value: &Option<Expr>,
    functions: &Functions,
    scope: &VariableScope,
) -> Result<bool, AllocError>
    ensures { IfOk result (λ keeps. keeps ≡ if_keeps functions.now scope.now value.now) }
{
    match value {
        None => Ok(true),
        Some(e) => keeps_names(e, functions, scope),
    }
}

fn bodies_keep_names(
    all: &[QueryFunction],
    functions: &Functions,
    scope: &VariableScope,
) -> Result<bool, AllocError>
    ensures { IfOk result (λ keep. keep ≡ list_all (body_keeps_names functions.now scope.now) all.now) }
{
    for function in all {
        if !body_keeps_names(function, functions, scope)? {
            return Ok(false);
        }
    }
    Ok(true)
}

fn body_keeps_names(
    function: &QueryFunction,
    functions: &Functions,
    scope: &VariableScope,
) -> Result<bool, AllocError>
    ensures { IfOk result (λ keeps. keeps ≡ body_keeps_names functions.now scope.now function.now) }
{
    let params = param_names(&function.params)?;
    let inner = scope.inside()?.with_all(&params)?;
    keeps_names(&function.body, functions, &inner)
}

fn keeps_names(e: &Expr, functions: &Functions, scope: &VariableScope) -> Result<bool, AllocError>
    ensures { IfOk result (λ keeps. keeps ≡ keeps_names functions.now scope.now e.now) }
{
    let fault = broken_names(e, functions, scope)?;
    Ok(fault.is_none())
}
