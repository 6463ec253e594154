// Expressions that decide.
ghost use Rattle.std.specs.Prelude.{map};
ghost use Rattle.eval_scopes.specs.Answers.{Answers};
ghost use Rattle.eval_steps.specs.ValueSlots.Slots.{Leaves};
ghost use Rattle.eval_scopes.specs.Scopes.{env_of, program_of};
ghost use Rattle.expr_eval.specs.Serves.{Serves};
ghost use Rattle.expr_meaning.specs.Meaning.{outcome};
ghost use Rattle.expr_meaning.specs.Logic.{truth_at, first_of, or_of, and_of, choice_of};
ghost use Rattle.eval_steps.specs.Parts.{arm_outcome};

use crate::hosts::{Callee, Host};
use eval_scopes::{Env, EvalFault};
use eval_steps::truth_of;
use eval_steps::value_slots::put_truth;
use xdm_items::ItemList;
use xt_names::ExprName;
use xt_syntax::{Arm, Expr};

impl<'a, G: Callee, F: Fn(&ExprName, &[ItemList], &mut u64) -> Result<ItemList, EvalFault>> Host<
    'a,
    G,
    F,
> {
    /// The truth value of an expression (XPath 2.0, 2.4.3).
    #[cycle(eval)]
    #[inline(never)]
    pub(crate) fn eval_truth(&self, env: &Env, next: &mut u64, e: &Expr) -> Result<bool, EvalFault>
        requires callable { F.IsAlwaysCallable self.now.calls }
        requires serves { Serves (F.post self.now.calls) (G.calls self.now.given) }
        ensures { let p = program_of self.now.fixed (G.calls self.now.given)
            (G.keys self.now.given) in
            Answers result next.new (truth_at (outcome p e.now) (env_of env.now) next.old) }
    {
        let mut list = ItemList::new(self.alloc);
        self.eval_into(env, next, e, &mut list)?;
        truth_of(list)
    }

    /// Truth values in order until one is the decisive one (XPath 2.0, 3.6).
    #[cycle(eval)]
    #[inline(never)]
    pub(crate) fn eval_first(
        &self,
        env: &Env,
        next: &mut u64,
        decisive: bool,
        all: &[Expr],
    ) -> Result<bool, EvalFault>
        requires callable { F.IsAlwaysCallable self.now.calls }
        requires serves { Serves (F.post self.now.calls) (G.calls self.now.given) }
        ensures { let p = program_of self.now.fixed (G.calls self.now.given)
            (G.keys self.now.given) in
            Answers result next.new (first_of decisive (map (outcome p) all.now) (env_of env.now)
            next.old) }
    {
        for e in all {
            let truth = self.eval_truth(env, next, e)?;
            if truth == decisive {
                return Ok(decisive);
            }
        }
        Ok(!decisive)
    }

    /// `or` (XPath 2.0, 3.6).
    #[cycle(eval)]
    #[inline(never)]
    pub(crate) fn eval_or(
        &self,
        env: &Env,
        next: &mut u64,
        all: &[Expr],
        value: &mut ItemList,
    ) -> Result<(), EvalFault>
        requires callable { F.IsAlwaysCallable self.now.calls }
        requires serves { Serves (F.post self.now.calls) (G.calls self.now.given) }
        ensures { let p = program_of self.now.fixed (G.calls self.now.given)
            (G.keys self.now.given) in
            Leaves result value.new next.new
            (or_of (map (outcome p) all.now) (env_of env.now) next.old) }
    {
        put_truth(self.alloc, self.eval_first(env, next, true, all), value)
    }

    /// `and` (XPath 2.0, 3.6).
    #[cycle(eval)]
    #[inline(never)]
    pub(crate) fn eval_and(
        &self,
        env: &Env,
        next: &mut u64,
        all: &[Expr],
        value: &mut ItemList,
    ) -> Result<(), EvalFault>
        requires callable { F.IsAlwaysCallable self.now.calls }
        requires serves { Serves (F.post self.now.calls) (G.calls self.now.given) }
        ensures { let p = program_of self.now.fixed (G.calls self.now.given)
            (G.keys self.now.given) in
            Leaves result value.new next.new
            (and_of (map (outcome p) all.now) (env_of env.now) next.old) }
    {
        put_truth(self.alloc, self.eval_first(env, next, false, all), value)
    }

    /// The first arm whose test is true (XPath 2.0, 3.8).
    #[cycle(eval)]
    #[inline(never)]
    pub(crate) fn eval_if(
        &self,
        env: &Env,
        next: &mut u64,
        arms: &[Arm],
        other: &Expr,
        value: &mut ItemList,
    ) -> Result<(), EvalFault>
        requires callable { F.IsAlwaysCallable self.now.calls }
        requires serves { Serves (F.post self.now.calls) (G.calls self.now.given) }
        ensures { let p = program_of self.now.fixed (G.calls self.now.given)
            (G.keys self.now.given) in
            Leaves result value.new next.new (choice_of (map (arm_outcome p) arms.now)
            (outcome p other.now) (env_of env.now) next.old) }
    {
        for arm in arms {
            let truth = self.eval_truth(env, next, arm.test.get())?;
            if truth {
                return self.eval_into(env, next, arm.then.get(), value);
            }
        }
        self.eval_into(env, next, other, value)
    }
}
