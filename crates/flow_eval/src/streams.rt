// FLWOR expressions whose tuples are not held.
ghost use Rattle.std.specs.Prelude.{◌≡◌, ◌≤◌, ◌+◌, [], map};
ghost use Rattle.xt_syntax.specs.declared.exprs.Clause.TheViews.{out-Bind, out-Flwor};
ghost use Rattle.expr_meaning.specs.Outcomes.Outcome.{and_then, for_each, step_outcome};
ghost use Rattle.expr_meaning.specs.SortMeaning.Sorted.{places};
ghost use Rattle.expr_meaning.specs.Logic.{typed};
ghost use Rattle.expr_meaning.specs.Meaning.{outcome};
ghost use Rattle.eval_steps.specs.EvalInner.Inner.{CanEvaluate, Evaluates};
ghost use Rattle.eval_steps.specs.Lists.{AnswersPushed};
ghost use Rattle.eval_steps.specs.Parts.{bind_outcome};
ghost use Rattle.eval_steps.specs.Sizes.{bind_nodes, clause_nodes, flwor_nodes};
ghost use Rattle.xt_names.specs.Lists.{total};
ghost use Rattle.eval_steps.specs.Steps.{bound_outcome};
ghost use Rattle.eval_steps.specs.ValueSlots.Slots.{Leaves};
ghost use Rattle.eval_scopes.specs.Scopes.{env_of};
ghost use Rattle.flow_eval.specs.FlowStreams.Streams.{stream_of, stream_for, stream_let, stream_item, stream_place, binder_of};

use crate::inner::Flows;
use eval_scopes::{Env, EvalFault, Scope, Variable};
use eval_steps::eval_inner::Within;
use eval_steps::value_slots::join;
use eval_steps::{list_size, place_in, pop_variable, push_item, push_position, push_value};
use xdm_items::{Item, ItemList};
use xt_names::ExprName;
use xt_syntax::{Bind, Clause, Expr};

impl<'a, W: Within, E: Fn(&Env, &mut u64, &Expr, &mut ItemList) -> Result<(), EvalFault>> Flows<
    'a,
    W,
    E,
> {
    /// The clauses that are left, and the body of each tuple as soon as the tuple stands (XQuery
    /// 1.0, 3.8).
    #[cycle(stream)]
    #[inline(always)]
    pub(crate) fn eval_stream(
        &self,
        env: &Env,
        next: &mut u64,
        clauses: &[Clause],
        value: &mut ItemList,
    ) -> Result<(), EvalFault>
        requires callable { CanEvaluate (E.pre self.now.eval) (flwor_nodes self.now.whole.now) }
        requires serves { Evaluates (E.post self.now.eval) (W.program self.now.within.now) }
        requires within { total (map clause_nodes clauses.now) ≤ flwor_nodes self.now.whole.now }
        ensures { let p = W.program self.now.within.now in
            Leaves result value.new next.new (stream_of (map (binder_of p) clauses.now)
            (outcome p (out-Flwor self.now.whole.now).body) (env_of env.now) next.old) }
    {
        match clauses {
            [] => self.eval_into(env, next, self.whole.body.get(), value),
            [first, rest @ ..] => match first {
                Clause::For(bind, place) => self.stream_for(env, next, bind, place, rest, value),
                Clause::Let(bind) => self.stream_let(env, next, bind, rest, value),
            },
        }
    }

    /// A `let` and what follows it (XQuery 1.0, 3.8.1).
    #[cycle(stream)]
    #[inline(never)]
    pub(crate) fn stream_let(
        &self,
        env: &Env,
        next: &mut u64,
        bind: &Bind,
        rest: &[Clause],
        value: &mut ItemList,
    ) -> Result<(), EvalFault>
        requires callable { CanEvaluate (E.pre self.now.eval) (flwor_nodes self.now.whole.now) }
        requires serves { Evaluates (E.post self.now.eval) (W.program self.now.within.now) }
        requires within { bind_nodes bind.now + total (map clause_nodes rest.now)
            ≤ flwor_nodes self.now.whole.now }
        ensures { let p = W.program self.now.within.now in
            Leaves result value.new next.new (stream_let (bind_outcome p bind.now)
            (stream_of (map (binder_of p) rest.now) (outcome p (out-Flwor self.now.whole.now).body))
            (env_of env.now) next.old) }
    {
        let mut bound = Vec::new(self.alloc);
        let found = self.stream_bound(env, next, bind, rest, &mut bound, value);
        release(bound);
        found
    }

    /// The same with a place for the variable.
    #[cycle(stream)]
    #[inline(always)]
    fn stream_bound(
        &self,
        env: &Env,
        next: &mut u64,
        bind: &Bind,
        rest: &[Clause],
        bound: &mut Vec<Variable>,
        value: &mut ItemList,
    ) -> Result<(), EvalFault>
        requires callable { CanEvaluate (E.pre self.now.eval) (flwor_nodes self.now.whole.now) }
        requires serves { Evaluates (E.post self.now.eval) (W.program self.now.within.now) }
        requires within { bind_nodes bind.now + total (map clause_nodes rest.now)
            ≤ flwor_nodes self.now.whole.now }
        requires none { bound.old.items ≡ [] }
        ensures { let p = W.program self.now.within.now in
            Leaves result value.new next.new (stream_let (bind_outcome p bind.now)
            (stream_of (map (binder_of p) rest.now) (outcome p (out-Flwor self.now.whole.now).body))
            (env_of env.now) next.old) }
    {
        self.push_let(env, next, bind, bound)?;
        let scope = Scope::Inner {
            variables: bound.as_slice(),
            outer: &*env.locals,
        };
        let inner = Env {
            locals: &scope,
            focus: &*env.focus,
            state: &*env.state,
        };
        match rest {
            [] => self.eval_into(&inner, next, self.whole.body.get(), value),
            _ => self.eval_stream(&inner, next, rest, value),
        }
    }

    /// The variable of a `let` after those that are bound (XQuery 1.0, 3.8.1).
    #[inline(never)]
    fn push_let(
        &self,
        env: &Env,
        next: &mut u64,
        bind: &Bind,
        bound: &mut Vec<Variable>,
    ) -> Result<(), EvalFault>
        requires callable { CanEvaluate (E.pre self.now.eval) (flwor_nodes self.now.whole.now) }
        requires serves { Evaluates (E.post self.now.eval) (W.program self.now.within.now) }
        requires within { bind_nodes bind.now ≤ flwor_nodes self.now.whole.now }
        ensures { let b = out-Bind bind.now in
            let source = outcome (W.program self.now.within.now) b.source in
            AnswersPushed result bound.old.items bound.new.items next.new
            (and_then (source (env_of env.now) next.old)
            (λ xs. bound_outcome b.var (typed b.kind xs))) }
    {
        let mut items = ItemList::new(self.alloc);
        self.eval_into(env, next, bind.source.get(), &mut items)?;
        push_value(self.alloc, bound, bind, items)
    }

    /// A `for` and what follows it (XQuery 1.0, 3.8.1).
    #[cycle(stream)]
    #[inline(never)]
    pub(crate) fn stream_for(
        &self,
        env: &Env,
        next: &mut u64,
        bind: &Bind,
        place: &Option<ExprName>,
        rest: &[Clause],
        value: &mut ItemList,
    ) -> Result<(), EvalFault>
        requires callable { CanEvaluate (E.pre self.now.eval) (flwor_nodes self.now.whole.now) }
        requires serves { Evaluates (E.post self.now.eval) (W.program self.now.within.now) }
        requires within { bind_nodes bind.now + total (map clause_nodes rest.now)
            ≤ flwor_nodes self.now.whole.now }
        ensures { let p = W.program self.now.within.now in
            Leaves result value.new next.new (stream_for (bind_outcome p bind.now) place.now
            (stream_of (map (binder_of p) rest.now) (outcome p (out-Flwor self.now.whole.now).body))
            (env_of env.now) next.old) }
    {
        let mut items = ItemList::new(self.alloc);
        self.eval_into(env, next, bind.source.get(), &mut items)?;
        match place {
            None => self.stream_turns(env, next, bind, items.as_slice(), rest, value),
            Some(at) => self.stream_places(env, next, bind, at, items.as_slice(), rest, value),
        }
    }

    /// What follows a `for`, at each of its items (XQuery 1.0, 3.8.1).
    #[cycle(stream)]
    #[inline(never)]
    pub(crate) fn stream_turns(
        &self,
        env: &Env,
        next: &mut u64,
        bind: &Bind,
        items: &[Item],
        rest: &[Clause],
        value: &mut ItemList,
    ) -> Result<(), EvalFault>
        requires callable { CanEvaluate (E.pre self.now.eval) (flwor_nodes self.now.whole.now) }
        requires serves { Evaluates (E.post self.now.eval) (W.program self.now.within.now) }
        requires within { total (map clause_nodes rest.now) ≤ flwor_nodes self.now.whole.now }
        ensures { let p = W.program self.now.within.now in
            Leaves result value.new next.new (for_each (stream_item (bind_outcome p bind.now)
            (stream_of (map (binder_of p) rest.now) (outcome p (out-Flwor self.now.whole.now).body))
            (env_of env.now)) items.now next.old) }
    {
        let mut list = ItemList::new(self.alloc);
        let mut bound = Vec::new(self.alloc);
        for item in items {
            push_item(self.alloc, &mut bound, bind, item)?;
            let scope = Scope::Inner {
                variables: bound.as_slice(),
                outer: &*env.locals,
            };
            let inner = Env {
                locals: &scope,
                focus: &*env.focus,
                state: &*env.state,
            };
            let mut more = ItemList::new(self.alloc);
            self.eval_stream(&inner, next, rest, &mut more)?;
            pop_variable(&mut bound);
            join(self.alloc, &mut list, &mut more)?;
        }
        *value = list;
        Ok(())
    }

    /// The same with the position of each item (XQuery 1.0, 3.8.1).
    #[cycle(stream)]
    #[inline(never)]
    pub(crate) fn stream_places(
        &self,
        env: &Env,
        next: &mut u64,
        bind: &Bind,
        at: &ExprName,
        items: &[Item],
        rest: &[Clause],
        value: &mut ItemList,
    ) -> Result<(), EvalFault>
        requires callable { CanEvaluate (E.pre self.now.eval) (flwor_nodes self.now.whole.now) }
        requires serves { Evaluates (E.post self.now.eval) (W.program self.now.within.now) }
        requires within { total (map clause_nodes rest.now) ≤ flwor_nodes self.now.whole.now }
        ensures { let p = W.program self.now.within.now in
            Leaves result value.new next.new (and_then (step_outcome (places items.now) next.old)
            (for_each (stream_place (bind_outcome p bind.now) at.now
            (stream_of (map (binder_of p) rest.now) (outcome p (out-Flwor self.now.whole.now).body))
            (env_of env.now)))) }
    {
        let size = list_size(items)?;
        let mut list = ItemList::new(self.alloc);
        let mut bound = Vec::new(self.alloc);
        let mut position = 0;
        for item in items {
            position += 1;
            push_item(self.alloc, &mut bound, bind, item)?;
            push_position(self.alloc, &mut bound, at, place_in(size, position))?;
            let scope = Scope::Inner {
                variables: bound.as_slice(),
                outer: &*env.locals,
            };
            let inner = Env {
                locals: &scope,
                focus: &*env.focus,
                state: &*env.state,
            };
            let mut more = ItemList::new(self.alloc);
            self.eval_stream(&inner, next, rest, &mut more)?;
            pop_variable(&mut bound);
            pop_variable(&mut bound);
            join(self.alloc, &mut list, &mut more)?;
        }
        *value = list;
        Ok(())
    }
}

/// Gives up variables, out of line so that what that takes stands on the stack only then.
#[inline(never)]
fn release(bound: Vec<Variable>) {
    drop(bound);
}
