// The parts of a query among its declarations.
ghost use Rattle.std.specs.Prelude.{◌≡◌, IfOk};
ghost use Rattle.query_resolve.specs.Queries.{variables_in, functions_in};

use closed_queries::prolog_rules::Declaration;
use std::alloc::{AllocError, Global};
use xt_names::List;
use xt_syntax::{QueryFunction, QueryVar};

/// The variables among the declarations, in order.
/// (XQuery 1.0, 4.14)
#[tactic(auto, unfolding(crate::specs::Queries::variable_and))]
pub(crate) fn variables_in(
    alloc: Global,
    declarations: &[Declaration],
) -> Result<List<QueryVar>, AllocError>
    ensures { IfOk result (λ all. all ≡ variables_in declarations.now) }
{
    let mut all = List::new(alloc);
    for declaration in declarations {
        if let Declaration::Variable(variable) = declaration {
            all.push(variable.copy()?)?;
        }
    }
    Ok(all)
}

/// The functions among the declarations, in order.
/// (XQuery 1.0, 4.15)
#[tactic(auto, unfolding(crate::specs::Queries::function_and))]
pub(crate) fn functions_in(
    alloc: Global,
    declarations: &[Declaration],
) -> Result<List<QueryFunction>, AllocError>
    ensures { IfOk result (λ all. all ≡ functions_in declarations.now) }
{
    let mut all = List::new(alloc);
    for declaration in declarations {
        if let Declaration::Function(function) = declaration {
            all.push(function.copy()?)?;
        }
    }
    Ok(all)
}
