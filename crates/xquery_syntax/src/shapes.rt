ghost use Rattle.std.specs.Prelude.{◌≡◌, IfOk};
ghost use Rattle.std.specs.List.{list_all};
ghost use Rattle.xquery_syntax.specs.QueryLaws.Shapes.{is_shaped_value, is_shaped_in, is_shaped_query};

use expr_rules::expr_shapes::is_shaped;
use expr_terms::Raw;
use query_grammar::{Declared, RawQuery};
use std::alloc::{AllocError, Global};

#[tactic(auto, unfolding(crate::specs::QueryLaws::Shapes::is_shaped_value))]
fn is_shaped_value(alloc: Global, value: &Option<Raw>) -> Result<bool, AllocError>
    ensures { IfOk result (λ shaped. shaped ≡ is_shaped_value value.now) }
{
    match value {
        None => Ok(true),
        Some(value) => is_shaped(alloc, value),
    }
}

#[tactic(auto, unfolding(crate::specs::QueryLaws::Shapes::is_shaped_in))]
fn is_shaped_in(alloc: Global, declared: &Declared) -> Result<bool, AllocError>
    ensures { IfOk result (λ shaped. shaped ≡ is_shaped_in declared.now) }
{
    match declared {
        Declared::Variable(_, value) => is_shaped_value(alloc, value),
        Declared::Function(_, _, _, body) => is_shaped(alloc, body),
        _ => Ok(true),
    }
}

fn are_shaped(alloc: Global, declared: &[Declared]) -> Result<bool, AllocError>
    ensures { IfOk result (λ shaped. shaped ≡ list_all is_shaped_in declared.now) }
{
    for d in declared {
        if !is_shaped_in(alloc, d)? {
            return Ok(false);
        }
    }
    Ok(true)
}

/// Whether each direct element of the query ends with the name that it begins with, and none has an
/// attribute `xmlns` (XQuery 1.0, 3.7.1).
pub(crate) fn is_shaped_query(alloc: Global, query: &RawQuery) -> Result<bool, AllocError>
    ensures { IfOk result (λ shaped. shaped ≡ is_shaped_query query.now) }
{
    if !are_shaped(alloc, query.declared.as_slice())? {
        return Ok(false);
    }
    is_shaped(alloc, &query.body)
}
