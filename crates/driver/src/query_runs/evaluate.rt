// The one place that knows the evaluator of queries.
ghost use Rattle.std.specs.Prelude.{◌≡◌, IfOk, IfErr, ℕ, map};
ghost use Rattle.expr_meaning.specs.Outcomes.Outcome.{Ends};
ghost use Rattle.command_words.specs.Requests.{inputs_in};
ghost use Rattle.driver.specs.QueryRuns.Queries.{outcome_on, param_of, IsRunRefusedAs};

use command_words::{Inputs, Parameter};
use doc_set::DocSet;
use run_parts::Status;
use std::alloc::{AllocError, Global};
use xdm_items::ItemList;
use xquery_eval::eval_scopes::EvalFault;
use xquery_eval::{Param, run_query_in};
use xt_names::List;
use xt_syntax::Query;
use xt_tree::Tree;

/// The items that the query gives on the document, where doc() finds the documents of the set
/// (XQuery 1.0, 2.2.3).
pub(crate) fn evaluate(
    alloc: Global,
    query: &Query,
    document: &Tree,
    set: &DocSet,
    inputs: &Inputs<'_>,
) -> Result<ItemList, Status>
    ensures items { IfOk result (λ items. (next : ℕ)
        × (outcome_on query.now document.now set.now (inputs_in inputs.now) ≡ Ends items next)) }
    ensures refused { IfErr result (IsRunRefusedAs
        (outcome_on query.now document.now set.now (inputs_in inputs.now)) inputs.now.depth) }
{
    let given = given_to(alloc, &inputs.parameters)?;
    match run_query_in(alloc, query, document, set, &given, inputs.depth) {
        Ok(items) => Ok(items),
        Err(EvalFault::Error(code)) => Err(Status::Dynamic(code)),
        Err(EvalFault::Deep) => Err(Status::Deep(inputs.depth)),
        Err(EvalFault::Memory(_)) => Err(Status::Memory),
    }
}

// The parameters as values of external variables.
fn given_to(alloc: Global, parameters: &List<Parameter>) -> Result<List<Param>, AllocError>
    ensures { IfOk result (λ given. given ≡ map param_of parameters.now) }
{
    let mut given = List::new(alloc);
    for parameter in parameters.as_slice() {
        let param = param_of(parameter)?;
        given.push(param)?;
    }
    Ok(given)
}

fn param_of(parameter: &Parameter) -> Result<Param, AllocError>
    ensures { IfOk result (λ param. param ≡ param_of parameter.now) }
{
    Ok(Param {
        name: parameter.name.copy()?,
        value: parameter.value.copy()?,
    })
}
