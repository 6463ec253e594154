// The value of an expression on its own.
ghost use Rattle.std.specs.Prelude.{◌≡◌, ◌+◌, [], length};
ghost use Rattle.expr_meaning.specs.Outcomes.Outcome.{Fails};
ghost use Rattle.xt_names.specs.declared.codes.Code.TheVariants.{QueryStatic};
ghost use Rattle.xt_names.specs.declared.codes.QueryStaticCode.TheVariants.{XPST0017 as unknown};
ghost use Rattle.expr_meaning.specs.Meaning.{outcome};
ghost use Rattle.expr_eval.specs.EvalLates.Late.{AnswersLate};
ghost use Rattle.eval_scopes.specs.Answers.{Answers};
ghost use Rattle.eval_scopes.specs.Scopes.{focus_of};
ghost use Rattle.plain_eval.specs.Plain.{AnswersPlain, focus_behind, plain_env, plain_program};

use crate::variables::Vars;
use eval_scopes::eval_values::Place;
use eval_scopes::{Env, EvalFault, Fixed, Focus as Placed, Globals, Scope, no_state};
use expr_eval::{Callee, Host};
use lazy_seq::Seq;
use std::alloc::{AllocError, Global};
use xdm_items::{Item, ItemList};
use xt_atoms::ValueFault;
use xt_names::{Code, ExprName, QueryStaticCode, Text, TextBuilder};
use xt_syntax::Expr;
use xt_tree::Node;

/// The context item with its position, from 1, and the context size (XPath 2.0, 2.1.2).
#[derive(Drop)]
pub struct Focus {
    pub item: Item,
    pub position: Place,
    pub size: Place,
}

/// No function is declared, and no key.
#[derive(Clone, Copy)]
struct Nothing {}

impl Callee for Nothing {
    ghost use Rattle.plain_eval.specs.Plain.{no_calls, no_keys};

    ghost calls = { λ c. no_calls };

    ghost keys = { λ c. no_keys };

    fn find_by_key(
        &self,
        alloc: Global,
        _name: &Text,
        _values: &ItemList,
        _root: &Node,
        _next: &mut u64,
    ) -> Result<ItemList, EvalFault> {
        Ok(ItemList::new(alloc))
    }
}

// The focus as it is read.
fn placed<'a>(focus: Option<&'a Focus>) -> Placed<'a>
    ensures { focus_of result ≡ focus_behind focus.entry }
{
    match focus {
        None => Placed::Absent,
        Some(focus) => Placed::At {
            item: &focus.item,
            position: focus.position,
            size: focus.size,
        },
    }
}

// The value, with the next number of a tree.
fn evaluated(
    alloc: Global,
    expr: &Expr,
    vars: &Vars,
    focus: &Placed,
    default: &Text,
    next: &mut u64,
) -> Result<Seq, EvalFault>
    requires { default.now ≡ [] }
    ensures { AnswersLate result next.new (outcome (plain_program vars.now.documents) expr.now
        (plain_env vars.now.locals (focus_of focus.now)) next.old) }
{
    let none = Globals::new(alloc);
    let outermost = Scope::Outermost;
    let locals = Scope::Inner {
        variables: vars.variables.as_slice(),
        outer: &outermost,
    };
    let state = no_state(&outermost);
    let env = Env {
        locals: &locals,
        focus: &*focus,
        state: &state,
    };
    let calls = |_name: &ExprName, _lists: &[ItemList], k: &mut u64| -> Result<ItemList, EvalFault>
        ensures { Answers result k.new (Fails (QueryStatic unknown)) }
    { Err(EvalFault::Error(Code::QueryStatic(QueryStaticCode::XPST0017))) };
    let host = Host {
        alloc,
        fixed: Fixed {
            globals: &none,
            documents: &vars.documents,
            namespaces: &[],
            element_default: &*default,
        },
        given: Nothing {},
        calls,
    };
    host.eval_late(&env, next, expr)
}

/// The value of the expression, where no function is declared (XPath 2.0, 2.1 and 3). `Error` comes
/// with the code of the first error, which is XPST0017 at a call of a function outside the library
/// and XPDY0002 at a variable that is not bound.
pub fn eval_plain(
    alloc: Global,
    expr: &Expr,
    vars: &Vars,
    focus: Option<&Focus>,
) -> Result<Seq, ValueFault>
    ensures { AnswersPlain result (outcome (plain_program vars.now.documents) expr.now
        (plain_env vars.now.locals (focus_behind focus.entry)) (length vars.now.documents + 1)) }
{
    let default = TextBuilder::new(alloc).finish()?;
    let mut next = match vars.documents.len().checked_add(1) {
        Some(next) => next,
        None => return Err(ValueFault::Memory(AllocError)),
    };
    let focus = placed(focus);
    match evaluated(alloc, expr, vars, &focus, &default, &mut next) {
        Ok(items) => Ok(items),
        Err(EvalFault::Error(code)) => Err(ValueFault::Error(code)),
        Err(EvalFault::Memory(e)) => Err(ValueFault::Memory(e)),
        Err(EvalFault::Deep) => unreachable!(),
    }
}
