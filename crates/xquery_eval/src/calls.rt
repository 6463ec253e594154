// Calls of the functions of a query.
ghost use Rattle.std.specs.Prelude.{◌≡◌};
ghost use Rattle.expr_meaning.specs.Env.{Calls};
ghost use Rattle.expr_meaning.specs.Queries.{program_of as query_program};
ghost use Rattle.expr_meaning.specs.Queries.{calls_at, program_at};
ghost use Rattle.expr_meaning.specs.Meaning.{outcome};
ghost use Rattle.eval_scopes.specs.Answers.{Answers};
ghost use Rattle.eval_scopes.specs.Scopes.{env_of, program_of};
ghost use Rattle.xquery_eval.specs.Runs.{run_of, no_keys};

use crate::functions::FunctionTable;
use crate::params::{Param, bound_params, converted_to};
use doc_set::DocSet;
use eval_scopes::{Env, EvalFault, Fixed, Focus, Globals, Scope, no_state};
use expr_eval::{Callee, Host};
use std::alloc::Global;
use xdm_items::ItemList;
use xt_names::{Code, ExprName, QueryStaticCode, Text};
use xt_syntax::{Expr, Query};
use xt_tree::Node;

/// What is fixed while a query runs.
#[derive(Clone, Copy)]
pub(crate) struct QueryRun<'a> {
    pub query: &'a Query,
    /// Its functions.
    pub functions: &'a FunctionTable<'a>,
    pub documents: &'a DocSet,
    pub given: &'a [Param],
}

impl<'a> QueryRun<'a> {
    /// What an expression of the query reads besides its scope (XQuery 1.0, 2.1.1 and 2.1.2).
    pub(crate) fn fixed(&self, globals: &'a Globals) -> Fixed<'a>
        ensures { (calls : Calls) → program_of result calls no_keys
            ≡ query_program (run_of self.now) globals.entry.now calls }
    {
        Fixed {
            globals,
            documents: self.documents,
            namespaces: self.query.prefixes.as_slice(),
            element_default: &self.query.element_default,
        }
    }
}

/// The calls of a query with so many left.
#[derive(Clone, Copy)]
pub(crate) struct QueryCalls<'a> {
    pub run: QueryRun<'a>,
    pub globals: &'a Globals,
    pub left: u32,
}

impl<'a> Callee for QueryCalls<'a> {
    ghost use Rattle.expr_meaning.specs.Queries.{calls_at};
    ghost use Rattle.xquery_eval.specs.Runs.{run_of, no_keys};

    ghost calls = { λ c. calls_at (run_of c.run) c.globals.now c.left };

    ghost keys = { λ c. no_keys };

    fn find_by_key(
        &self,
        alloc: Global,
        _name: &Text,
        _values: &ItemList,
        _root: &Node,
        _next: &mut u64,
    ) -> Result<ItemList, EvalFault> {
        Ok(ItemList::new(alloc))
    }
}

/// The value of an expression of the query, with so many calls left.
pub(crate) fn eval_in(
    alloc: Global,
    run: &QueryRun,
    globals: &Globals,
    left: u32,
    env: &Env,
    next: &mut u64,
    e: &Expr,
) -> Result<ItemList, EvalFault>
    ensures { Answers result next.new (outcome (program_at (run_of run.now)
        globals.now left)
        e.now (env_of env.now) next.old) }
{
    let calls = |name: &ExprName, lists: &[ItemList], k: &mut u64| -> Result<ItemList, EvalFault>
        ensures { Answers result k.new (calls_at (run_of run.entry.now)
            globals.entry.now left
            name.now lists.now k.old) }
    { call_function(alloc, run, globals, left, name, lists, k) };
    let host = Host {
        alloc,
        fixed: run.fixed(&*globals),
        given: QueryCalls {
            run: *run,
            globals: &*globals,
            left,
        },
        calls,
    };
    host.eval(env, next, e)
}

/// A call of a function, where so many calls are left (XQuery 1.0, 4.15).
#[cycle(call)]
fn call_function(
    alloc: Global,
    run: &QueryRun,
    globals: &Globals,
    left: u32,
    name: &ExprName,
    lists: &[ItemList],
    next: &mut u64,
) -> Result<ItemList, EvalFault>
    ensures { Answers result next.new (calls_at (run_of run.now) globals.now left
        name.now
        lists.now next.old) }
{
    let function = match run.functions.find(name, lists.len())? {
        Some(function) => function,
        None => return Err(EvalFault::Error(Code::QueryStatic(QueryStaticCode::XPST0017))),
    };
    let bound = bound_params(alloc, function.params.as_slice(), lists)?;
    if left == 0 {
        return Err(EvalFault::Deep);
    }
    let fewer = left - 1;
    let outermost = Scope::Outermost;
    let scope = Scope::Inner {
        variables: bound.as_slice(),
        outer: &outermost,
    };
    let state = no_state(&outermost);
    let focus = Focus::Absent;
    let env = Env {
        locals: &scope,
        focus: &focus,
        state: &state,
    };
    let calls = |name: &ExprName, lists: &[ItemList], k: &mut u64| -> Result<ItemList, EvalFault>
        ensures { Answers result k.new (calls_at (run_of run.entry.now) globals.entry.now
            fewer name.now lists.now k.old) }
    { call_function(alloc, run, globals, fewer, name, lists, k) };
    let host = Host {
        alloc,
        fixed: run.fixed(&*globals),
        given: QueryCalls {
            run: *run,
            globals: &*globals,
            left: fewer,
        },
        calls,
    };
    let value = host.eval(&env, next, &function.body)?;
    Ok(converted_to(alloc, &function.kind, value)?)
}
