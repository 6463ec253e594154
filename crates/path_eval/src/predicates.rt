// Predicates.
ghost use Rattle.std.specs.Prelude.{◌+◌, ◌<◌, map};
ghost use Rattle.eval_scopes.specs.Answers.{Answers};
ghost use Rattle.eval_steps.specs.EvalInner.Inner.{CanEvaluateBelow, Evaluates};
ghost use Rattle.eval_steps.specs.EvalLates.Late.{literal};
ghost use Rattle.eval_steps.specs.Sizes.{nodes};
ghost use Rattle.xt_names.specs.Lists.{total};
ghost use Rattle.eval_steps.specs.ValueSlots.Slots.{Leaves};
ghost use Rattle.eval_scopes.specs.Scopes.{env_of, program_of};
ghost use Rattle.path_eval.specs.Lates.{CanEvaluateLate, EvaluatesLate};
ghost use Rattle.expr_meaning.specs.Meaning.{outcome};
ghost use Rattle.expr_meaning.specs.Paths.{filter_of, kept_in_turn, kept};
ghost use Rattle.expr_meaning.specs.Outcomes.Outcome.{and_then};

use crate::forms::ItemForm;
use eval_scopes::{Env, EvalFault, Focus};
use eval_steps::eval_inner::Calling;
use eval_steps::eval_lates::late_item;
use eval_steps::value_slots::put;
use eval_steps::{is_kept_at, list_size, literal_place, place_in, push_kept};
use lazy_seq::Seq;
use quiet_steps::{has_late_walk, late_walk_place};
use xdm_items::{Item, ItemList};
use xt_syntax::Expr;

impl<
    'a,
    W: Calling,
    E: Fn(&Env, &mut u64, &Expr, &mut ItemList) -> Result<(), EvalFault>,
    L: Fn(&Env, &mut u64, &Expr) -> Result<Seq, EvalFault>,
> ItemForm<'a, W, E, L> {
    /// `a[p]..` (XPath 2.0, 3.3.2).
    #[inline(never)]
    pub(crate) fn eval_filter(
        &self,
        env: &Env,
        next: &mut u64,
        of: &Expr,
        tests: &[Expr],
        value: &mut ItemList,
    ) -> Result<(), EvalFault>
        requires callable { CanEvaluateBelow (E.pre self.now.form.eval)
            (nodes self.now.form.whole.now) }
        requires serves { Evaluates (E.post self.now.form.eval) (program_of self.now.form.fixed.now
            (W.calls self.now.form.within.now) (W.keys self.now.form.within.now)) }
        requires late_callable { CanEvaluateLate (L.pre self.now.late)
            (nodes self.now.form.whole.now) }
        requires late_serves { EvaluatesLate (L.post self.now.late) (program_of
            self.now.form.fixed.now (W.calls self.now.form.within.now)
            (W.keys self.now.form.within.now)) }
        requires within { nodes of.now + total (map nodes tests.now)
            < nodes self.now.form.whole.now }
        ensures { let p = program_of self.now.form.fixed.now (W.calls self.now.form.within.now)
            (W.keys self.now.form.within.now) in
            Leaves result value.new next.new (filter_of (outcome p of.now) (map (outcome p) tests.now)
            (env_of env.now) next.old) }
    {
        match literal_place(tests) {
            Some(place) => put(self.eval_place(env, next, of, place), value),
            None => {
                let items = self.form.eval(env, next, of)?;
                put(self.eval_predicates(env, next, tests, items), value)
            }
        }
    }

    /// What a predicate that is an integer keeps (XPath 2.0, 3.3.2).
    #[inline(never)]
    pub(crate) fn eval_place(
        &self,
        env: &Env,
        next: &mut u64,
        of: &Expr,
        place: i64,
    ) -> Result<ItemList, EvalFault>
        requires callable { CanEvaluateBelow (E.pre self.now.form.eval)
            (nodes self.now.form.whole.now) }
        requires serves { Evaluates (E.post self.now.form.eval) (program_of self.now.form.fixed.now
            (W.calls self.now.form.within.now) (W.keys self.now.form.within.now)) }
        requires late_callable { CanEvaluateLate (L.pre self.now.late)
            (nodes self.now.form.whole.now) }
        requires late_serves { EvaluatesLate (L.post self.now.late) (program_of
            self.now.form.fixed.now (W.calls self.now.form.within.now)
            (W.keys self.now.form.within.now)) }
        requires within { nodes of.now < nodes self.now.form.whole.now }
        ensures { let p = program_of self.now.form.fixed.now (W.calls self.now.form.within.now)
            (W.keys self.now.form.within.now) in
            Answers result next.new (and_then (outcome p of.now (env_of env.now) next.old)
            (kept (literal place) (env_of env.now))) }
    {
        if has_late_walk(self.form.alloc, env, of)? {
            return late_walk_place(self.form.alloc, env, of, place);
        }
        let items = self.eval_late(env, next, of)?;
        late_item(self.form.alloc, items, place)
    }

    /// What predicates keep in turn (XPath 2.0, 3.3.2).
    #[inline(never)]
    pub(crate) fn eval_predicates(
        &self,
        env: &Env,
        next: &mut u64,
        tests: &[Expr],
        items: ItemList,
    ) -> Result<ItemList, EvalFault>
        requires callable { CanEvaluateBelow (E.pre self.now.form.eval)
            (nodes self.now.form.whole.now) }
        requires serves { Evaluates (E.post self.now.form.eval) (program_of self.now.form.fixed.now
            (W.calls self.now.form.within.now) (W.keys self.now.form.within.now)) }
        requires within { total (map nodes tests.now) < nodes self.now.form.whole.now }
        ensures { let p = program_of self.now.form.fixed.now (W.calls self.now.form.within.now)
            (W.keys self.now.form.within.now) in
            Answers result next.new (kept_in_turn (map (outcome p) tests.now) (env_of env.now) items
            next.old) }
    {
        let mut kept = items;
        for test in tests {
            kept = self.eval_predicate(env, next, test, kept.as_slice())?;
        }
        Ok(kept)
    }

    /// What a predicate keeps: it is asked at each item with its position (XPath 2.0, 3.3.2).
    #[inline(never)]
    pub(crate) fn eval_predicate(
        &self,
        env: &Env,
        next: &mut u64,
        test: &Expr,
        items: &[Item],
    ) -> Result<ItemList, EvalFault>
        requires callable { CanEvaluateBelow (E.pre self.now.form.eval)
            (nodes self.now.form.whole.now) }
        requires serves { Evaluates (E.post self.now.form.eval) (program_of self.now.form.fixed.now
            (W.calls self.now.form.within.now) (W.keys self.now.form.within.now)) }
        requires within { nodes test.now < nodes self.now.form.whole.now }
        ensures { let p = program_of self.now.form.fixed.now (W.calls self.now.form.within.now)
            (W.keys self.now.form.within.now) in
            Answers result next.new (kept (outcome p test.now) (env_of env.now) items.now
            next.old) }
    {
        let size = list_size(items)?;
        let mut kept = ItemList::new(self.form.alloc);
        let mut position = 0;
        for item in items {
            position += 1;
            let place = place_in(size, position);
            let focus = Focus::At {
                item,
                position: place,
                size,
            };
            let inner = Env {
                locals: &*env.locals,
                focus: &focus,
                state: &*env.state,
            };
            let value = self.form.eval(&inner, next, test)?;
            let keeps = is_kept_at(place, value)?;
            push_kept(&mut kept, item, keeps)?;
        }
        Ok(kept)
    }
}
