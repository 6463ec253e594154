// Variables and functions.
ghost use Rattle.std.specs.Prelude.{◌≡◌, ◌++◌, [], option_map, List as Items};
ghost use Rattle.xt_names.specs.declared.codes.Code.{Code};
ghost use Rattle.expr_names.specs.Answers.{Answers};
ghost use Rattle.expr_names.specs.Names.{expr_name};
ghost use Rattle.expr_rules.specs.ExprMeant.Names.{written_in};
ghost use Rattle.expr_resolve.specs.Folds.{broken_of, expr_meant};
ghost use Rattle.query_resolve.specs.Declarations.{name_broken, kind_broken, kind_meant};
ghost use Rattle.query_resolve.specs.Declarations.{value_broken};
ghost use Rattle.query_resolve.specs.Declarations.{typed_broken, param_meant, params_broken};
ghost use Rattle.query_resolve.specs.Declarations.{params_meant};
ghost use Rattle.query_resolve.specs.Declarations.{variable_broken, variable_meant};
ghost use Rattle.query_resolve.specs.Declarations.{function_broken, function_meant};

use expr_names::{ResolveFault, expr_name, no_text};
use expr_resolve::{Setting, resolve, resolve_type};
use expr_rules::expr_meant::written_in;
use expr_terms::{Raw, Token};
use query_grammar::Typed;
use std::alloc::Global;
use xt_names::{ExprName, List, Text};
use xt_syntax::{Expr, QueryFunction, QueryParam, QueryVar, SeqType};

/// The name; XPST0081 where its prefix is not declared.
fn named(alloc: Global, s: &Setting, default: &Text, name: &Token) -> Result<ExprName, ResolveFault>
    ensures { Answers result (name_broken s.now name.now)
        (expr_name s.now.prefixes.bound default.now (written_in name.now)) }
{
    let written = written_in(alloc, name)?;
    expr_name(alloc, &s.prefixes.bound, default, &written)
}

#[tactic(auto, unfolding(crate::specs::Declarations::kind_broken))]
fn kind_of(alloc: Global, s: &Setting, kind: &Option<Raw>) -> Result<Option<SeqType>, ResolveFault>
    ensures { Answers result (kind_broken s.now kind.now) (kind_meant s.now kind.now) }
{
    match kind {
        None => Ok(None),
        Some(kind) => Ok(Some(resolve_type(alloc, s, kind)?)),
    }
}

#[tactic(auto, unfolding(crate::specs::Declarations::value_broken))]
fn value_of(alloc: Global, s: &Setting, value: &Option<Raw>) -> Result<Option<Expr>, ResolveFault>
    ensures { Answers result (value_broken s.now value.now)
        (option_map (expr_meant s.now) value.now) }
{
    match value {
        None => Ok(None),
        Some(value) => Ok(Some(resolve(alloc, s, value)?)),
    }
}

#[tactic(auto, using(expr_names::proofs::Follow::fault_first, expr_names::proofs::Follow::fault_next))]
fn param_of(alloc: Global, s: &Setting, param: &Typed) -> Result<QueryParam, ResolveFault>
    ensures { Answers result (typed_broken s.now param.now) (param_meant s.now param.now) }
{
    let none = no_text(alloc)?;
    let name = named(alloc, s, &none, &param.name)?;
    let kind = kind_of(alloc, s, &param.kind)?;
    Ok(QueryParam { name, kind })
}

#[tactic(auto, using(expr_names::proofs::Follow::fault_first, expr_names::proofs::Follow::fault_next))]
fn params_of(alloc: Global, s: &Setting, params: &[Typed]) -> Result<List<QueryParam>, ResolveFault>
    ensures { Answers result (params_broken s.now params.now) (params_meant s.now params.now) }
{
    let mut made = List::new(alloc);
    let mut left = params;
    while let [param, rest @ ..] = left {
        made.push(param_of(alloc, s, param)?)?;
        left = rest;
    }
    Ok(made)
}

fn with_value(param: QueryParam, value: Option<Expr>) -> QueryVar
    ensures { result ≡ record { name = param.name; kind = param.kind; value = value } }
{
    QueryVar {
        name: param.name,
        kind: param.kind,
        value,
    }
}

/// The variable, or the code of the first rule that it breaks in how it is written.
/// (XQuery 1.0, 4.14)
#[tactic(auto, using(expr_names::proofs::Follow::fault_first, expr_names::proofs::Follow::fault_next))]
pub(crate) fn variable_of(
    alloc: Global,
    s: &Setting,
    variable: &Typed,
    value: &Option<Raw>,
) -> Result<QueryVar, ResolveFault>
    ensures { Answers result (variable_broken s.now variable.now value.now)
        (variable_meant s.now variable.now value.now) }
{
    let param = param_of(alloc, s, variable)?;
    let value = value_of(alloc, s, value)?;
    Ok(with_value(param, value))
}

/// The function, or the code of the first rule that it breaks in how it is written.
/// (XQuery 1.0, 4.15)
#[tactic(auto, using(expr_names::proofs::Follow::fault_first, expr_names::proofs::Follow::fault_next))]
pub(crate) fn function_of(
    alloc: Global,
    s: &Setting,
    name: &Token,
    params: &[Typed],
    kind: &Option<Raw>,
    body: &Raw,
) -> Result<QueryFunction, ResolveFault>
    ensures { Answers result (function_broken s.now name.now params.now kind.now body.now)
        (function_meant s.now name.now params.now kind.now body.now) }
{
    let name = named(alloc, s, &s.prefixes.function_default, name)?;
    let params = params_of(alloc, s, params)?;
    let kind = kind_of(alloc, s, kind)?;
    let body = resolve(alloc, s, body)?;
    Ok(QueryFunction {
        name,
        params,
        kind,
        body,
    })
}
