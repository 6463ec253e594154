// The rules on what a query declares.
ghost use Rattle.std.specs.Prelude.{◌≡◌, ◌++◌, map, IfOk, OnOk};
ghost use Rattle.expr_raws.specs.PathRaws.Names.{no_codes};
ghost use Rattle.closed_queries.specs.PrologRules.Declarations.{query_broken};
ghost use Rattle.closed_queries.specs.declared.prolog_rules.declarations.Declaration.TheVariants as declaration;
ghost use Rattle.printed_laws.specs.PrintedQueries.Keeps.{declared_in, keeps_declarations};

use closed_queries::prolog_rules::{Declaration, broken_query};
use std::alloc::{AllocError, Global};
use xt_names::List;
use xt_syntax::{Expr, Query, QueryFunction, QueryVar};

fn push_variables(
    declared: &mut List<Declaration>,
    variables: &[QueryVar],
) -> Result<(), AllocError>
    ensures { OnOk result (declared.new
        ≡ declared.old ++ map (λ v. declaration.Variable v) variables.now) }
{
    for variable in variables {
        declared.push(Declaration::Variable(variable.copy()?))?;
    }
    Ok(())
}

fn push_functions(
    declared: &mut List<Declaration>,
    functions: &[QueryFunction],
) -> Result<(), AllocError>
    ensures { OnOk result (declared.new
        ≡ declared.old ++ map (λ f. declaration.Function f) functions.now) }
{
    for function in functions {
        declared.push(Declaration::Function(function.copy()?))?;
    }
    Ok(())
}

/// Variables, and after them functions.
fn declared_in(alloc: Global, query: &Query) -> Result<List<Declaration>, AllocError>
    ensures { IfOk result (λ declared. declared ≡ declared_in query.now) }
{
    let mut declared = List::new(alloc);
    push_variables(&mut declared, query.variables.as_slice())?;
    push_functions(&mut declared, query.functions.as_slice())?;
    Ok(declared)
}

#[tactic(auto, using(crate::proofs::PrintableQueries::CodeLemmas::codes))]
fn break_nothing(declared: &List<Declaration>, body: &Expr) -> Result<bool, AllocError>
    ensures { IfOk result (λ kept. kept ≡ no_codes (query_broken declared.now body.now)) }
{
    let fault = broken_query(declared, body)?;
    Ok(!fault.is_some())
}

/// Whether variables and functions break no rule, and each name in an expression is in scope.
/// (XQuery 1.0, 4.14 and 4.15)
pub(crate) fn keeps_declarations(alloc: Global, query: &Query) -> Result<bool, AllocError>
    ensures { IfOk result (λ keeps. keeps ≡ keeps_declarations query.now) }
{
    let declared = declared_in(alloc, query)?;
    let kept = break_nothing(&declared, &query.body);
    drop(declared);
    kept
}
