// The global variables of a query.
ghost use Rattle.std.specs.Prelude.{[]};
ghost use Rattle.expr_meaning.specs.Queries.{globals_from, program_at, top_env, variable_outcome};
ghost use Rattle.eval_scopes.specs.Answers.{Answers};
ghost use Rattle.eval_scopes.specs.Scopes.{binding_of};
ghost use Rattle.expr_meaning.specs.Meaning.{outcome};
ghost use Rattle.xquery_eval.specs.Runs.{run_of};

use crate::calls::{QueryRun, eval_in};
use crate::params::{external_value, held};
use eval_scopes::eval_values::{Place, typed};
use eval_scopes::{Env, EvalFault, Focus, Globals, Scope, no_state};
use std::alloc::Global;
use xdm_items::{Item, ItemList};
use xt_syntax::{Expr, QueryVar};

/// The value of an expression at the document node, with no local variables.
pub(crate) fn eval_at_top(
    alloc: Global,
    run: &QueryRun,
    globals: &Globals,
    left: u32,
    document: &Item,
    next: &mut u64,
    e: &Expr,
) -> Result<ItemList, EvalFault>
    ensures { Answers result next.new (outcome (program_at (run_of run.now)
        globals.now left)
        e.now (top_env document.now) next.old) }
{
    let outermost = Scope::Outermost;
    let state = no_state(&outermost);
    let focus = Focus::At {
        item: document,
        position: Place::first(),
        size: Place::first(),
    };
    let env = Env {
        locals: &outermost,
        focus: &focus,
        state: &state,
    };
    eval_in(alloc, run, globals, left, &env, next, e)
}

/// The value of a variable: that of its initialiser, or what is given from outside (XQuery 1.0,
/// 4.14).
fn variable_value(
    alloc: Global,
    run: &QueryRun,
    globals: &Globals,
    left: u32,
    document: &Item,
    next: &mut u64,
    variable: &QueryVar,
) -> Result<ItemList, EvalFault>
    ensures { Answers result next.new (variable_outcome (run_of run.now)
        (program_at (run_of run.now) globals.now left) document.now variable.now
        next.old) }
{
    match &variable.value {
        None => Ok(external_value(alloc, &variable.kind, run.given, &variable.name)?),
        Some(e) => {
            let value = eval_at_top(alloc, run, globals, left, document, next, e)?;
            Ok(typed(&variable.kind, value)?)
        }
    }
}

/// The variables in order, each with those before it; the last is innermost (XQuery 1.0, 4.14).
pub(crate) fn global_variables(
    alloc: Global,
    run: &QueryRun,
    left: u32,
    document: &Item,
    next: &mut u64,
) -> Result<Globals, EvalFault>
    ensures { Answers result next.new (globals_from (run_of run.now) document.now left
        run.now.query.now.variables [] next.old) }
{
    let mut globals = Globals::new(alloc);
    for variable in run.query.variables.as_slice() {
        let value = variable_value(alloc, run, &globals, left, document, next, variable)?;
        globals = globals.with(held(alloc, &variable.name, value)?)?;
    }
    Ok(globals)
}
