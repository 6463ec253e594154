// Calls of functions.
ghost use Rattle.std.specs.Prelude.{◌∷◌, [], map};
ghost use Rattle.eval_steps.specs.ValueSlots.Slots.{Leaves};
ghost use Rattle.eval_steps.specs.Lists.{AnswersAll};
ghost use Rattle.eval_scopes.specs.Scopes.{env_of, program_of};
ghost use Rattle.expr_eval.specs.Serves.{Serves};
ghost use Rattle.expr_meaning.specs.Meaning.{outcome};
ghost use Rattle.expr_meaning.specs.Calls.{call_of, lists_of};
ghost use Rattle.fn_lib.specs.Functions.{function_value};
ghost use Rattle.expr_meaning.specs.Outcomes.Outcome.{and_then, step_outcome};

use crate::hosts::{Callee, Host};
use eval_calls::{Called, find_called};
use eval_scopes::{Env, EvalFault};
use eval_steps::eval_lates::late_answer;
use eval_steps::push_list;
use function_table::Builtin;
use xdm_items::ItemList;
use xt_names::ExprName;
use xt_syntax::Expr;

impl<'a, G: Callee, F: Fn(&ExprName, &[ItemList], &mut u64) -> Result<ItemList, EvalFault>> Host<
    'a,
    G,
    F,
> {
    /// A call of a function (XPath 2.0, 3.1.5).
    #[cycle(eval)]
    #[inline(never)]
    pub(crate) fn eval_call(
        &self,
        env: &Env,
        next: &mut u64,
        name: &ExprName,
        args: &[Expr],
        value: &mut ItemList,
    ) -> Result<(), EvalFault>
        requires callable { F.IsAlwaysCallable self.now.calls }
        requires serves { Serves (F.post self.now.calls) (G.calls self.now.given) }
        ensures { let p = program_of self.now.fixed (G.calls self.now.given)
            (G.keys self.now.given) in
            Leaves result value.new next.new (call_of p name.now (map (outcome p) args.now)
            (env_of env.now) next.old) }
    {
        match args {
            [only] => self.eval_call_of_one(env, next, name, only, value),
            _ => self.eval_call_of_many(env, next, name, args, value),
        }
    }

    /// A call with no argument or more than one (XPath 2.0, 3.1.5).
    #[cycle(eval)]
    #[inline(never)]
    pub(crate) fn eval_call_of_many(
        &self,
        env: &Env,
        next: &mut u64,
        name: &ExprName,
        args: &[Expr],
        value: &mut ItemList,
    ) -> Result<(), EvalFault>
        requires callable { F.IsAlwaysCallable self.now.calls }
        requires serves { Serves (F.post self.now.calls) (G.calls self.now.given) }
        ensures { let p = program_of self.now.fixed (G.calls self.now.given)
            (G.keys self.now.given) in
            Leaves result value.new next.new (call_of p name.now (map (outcome p) args.now)
            (env_of env.now) next.old) }
    {
        let lists = self.eval_args(env, next, args)?;
        let called = find_called(name, args.len());
        self.call(env, next, called, name, lists.as_slice(), value)
    }

    /// A call with one argument. A function of the library may ask it how many items it has (XPath
    /// 2.0, 2.3.1 and 3.1.5).
    #[cycle(eval)]
    #[inline(never)]
    pub(crate) fn eval_call_of_one(
        &self,
        env: &Env,
        next: &mut u64,
        name: &ExprName,
        arg: &Expr,
        value: &mut ItemList,
    ) -> Result<(), EvalFault>
        requires callable { F.IsAlwaysCallable self.now.calls }
        requires serves { Serves (F.post self.now.calls) (G.calls self.now.given) }
        ensures { let p = program_of self.now.fixed (G.calls self.now.given)
            (G.keys self.now.given) in
            Leaves result value.new next.new (call_of p name.now (outcome p arg.now ∷ []) (env_of env.now)
            next.old) }
    {
        let called = find_called(name, 1);
        match called {
            Called::Library(f) => self.eval_call_of_library(env, next, f, arg, value),
            _ => {
                let lists = [self.eval(env, next, arg)?];
                self.call(env, next, called, name, &lists, value)
            }
        }
    }

    /// The value of a function of the library with one argument (XPath 2.0, 2.3.1 and 3.1.5).
    #[cycle(eval)]
    #[inline(never)]
    pub(crate) fn eval_call_of_library(
        &self,
        env: &Env,
        next: &mut u64,
        f: Builtin,
        arg: &Expr,
        value: &mut ItemList,
    ) -> Result<(), EvalFault>
        requires callable { F.IsAlwaysCallable self.now.calls }
        requires serves { Serves (F.post self.now.calls) (G.calls self.now.given) }
        ensures { let p = program_of self.now.fixed (G.calls self.now.given)
            (G.keys self.now.given) in
            Leaves result value.new next.new (and_then (outcome p arg.now (env_of env.now) next.old)
            (λ xs j. step_outcome (function_value f (xs ∷ [])) j)) }
    {
        let items = self.eval_late(env, next, arg)?;
        *value = late_answer(self.alloc, f, items)?;
        Ok(())
    }

    /// The arguments of a call, in order (XPath 2.0, 3.1.5).
    #[cycle(eval)]
    #[inline(never)]
    pub(crate) fn eval_args(
        &self,
        env: &Env,
        next: &mut u64,
        args: &[Expr],
    ) -> Result<Vec<ItemList>, EvalFault>
        requires callable { F.IsAlwaysCallable self.now.calls }
        requires serves { Serves (F.post self.now.calls) (G.calls self.now.given) }
        ensures { let p = program_of self.now.fixed (G.calls self.now.given)
            (G.keys self.now.given) in
            AnswersAll result next.new (lists_of (map (outcome p) args.now) (env_of env.now)
            next.old) }
    {
        let mut lists = Vec::new(self.alloc);
        for e in args {
            let list = self.eval(env, next, e)?;
            push_list(&mut lists, list)?;
        }
        Ok(lists)
    }
}
