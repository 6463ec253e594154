// Quantifiers.
ghost use Rattle.std.specs.Prelude.{◌+◌, ◌<◌, map};
ghost use Rattle.eval_scopes.specs.Answers.{Answers};
ghost use Rattle.eval_steps.specs.EvalInner.Inner.{CanEvaluateBelow, Evaluates};
ghost use Rattle.eval_steps.specs.Parts.{bind_outcome};
ghost use Rattle.eval_steps.specs.Sizes.{bind_nodes, nodes};
ghost use Rattle.xt_names.specs.Lists.{total};
ghost use Rattle.eval_steps.specs.ValueSlots.Slots.{Leaves};
ghost use Rattle.eval_scopes.specs.Scopes.{env_of, program_of};
ghost use Rattle.path_eval.specs.Lates.{CanEvaluateLate, EvaluatesLate};
ghost use Rattle.expr_meaning.specs.Meaning.{outcome};
ghost use Rattle.expr_meaning.specs.Logic.{item_decides, quantified, quantifier_of, truth_at};
ghost use Rattle.node_walks.specs.Moves.{given};

use crate::forms::ItemForm;
use eval_scopes::{Env, EvalFault, Scope};
use eval_steps::eval_inner::Calling;
use eval_steps::value_slots::put_truth;
use eval_steps::{pop_variable, push_next, truth_of};
use lazy_seq::Seq;
use xdm_items::ItemList;
use xt_syntax::{Bind, Expr};

impl<
    'a,
    W: Calling,
    E: Fn(&Env, &mut u64, &Expr, &mut ItemList) -> Result<(), EvalFault>,
    L: Fn(&Env, &mut u64, &Expr) -> Result<Seq, EvalFault>,
> ItemForm<'a, W, E, L> {
    /// The truth value of an expression (XPath 2.0, 2.4.3).
    #[inline(never)]
    pub(crate) fn eval_truth(&self, env: &Env, next: &mut u64, e: &Expr) -> Result<bool, EvalFault>
        requires callable { CanEvaluateBelow (E.pre self.now.form.eval)
            (nodes self.now.form.whole.now) }
        requires serves { Evaluates (E.post self.now.form.eval) (program_of self.now.form.fixed.now
            (W.calls self.now.form.within.now) (W.keys self.now.form.within.now)) }
        requires within { nodes e.now < nodes self.now.form.whole.now }
        ensures { let p = program_of self.now.form.fixed.now (W.calls self.now.form.within.now)
            (W.keys self.now.form.within.now) in
            Answers result next.new (truth_at (outcome p e.now) (env_of env.now) next.old) }
    {
        let mut list = ItemList::new(self.form.alloc);
        self.form.eval_into(env, next, e, &mut list)?;
        truth_of(list)
    }

    /// A quantifier (XPath 2.0, 3.9).
    #[inline(never)]
    pub(crate) fn eval_quantifier(
        &self,
        env: &Env,
        next: &mut u64,
        every: bool,
        binds: &[Bind],
        test: &Expr,
        value: &mut ItemList,
    ) -> Result<(), EvalFault>
        requires callable { CanEvaluateBelow (E.pre self.now.form.eval)
            (nodes self.now.form.whole.now) }
        requires serves { Evaluates (E.post self.now.form.eval) (program_of self.now.form.fixed.now
            (W.calls self.now.form.within.now) (W.keys self.now.form.within.now)) }
        requires late_callable { CanEvaluateLate (L.pre self.now.late)
            (nodes self.now.form.whole.now) }
        requires late_serves { EvaluatesLate (L.post self.now.late) (program_of
            self.now.form.fixed.now (W.calls self.now.form.within.now)
            (W.keys self.now.form.within.now)) }
        requires within { total (map bind_nodes binds.now) + nodes test.now
            < nodes self.now.form.whole.now }
        ensures { let p = program_of self.now.form.fixed.now (W.calls self.now.form.within.now)
            (W.keys self.now.form.within.now) in
            Leaves result value.new next.new (quantifier_of every
            (map (bind_outcome p) binds.now) (outcome p test.now) (env_of env.now) next.old) }
    {
        put_truth(
            self.form.alloc,
            self.eval_binds(env, next, !every, binds, test),
            value,
        )
    }

    /// The bindings of a quantifier that are left. No item after the one that decides is looked
    /// for (XPath 2.0, 3.9).
    #[cycle(binds)]
    #[inline(never)]
    pub(crate) fn eval_binds(
        &self,
        env: &Env,
        next: &mut u64,
        decisive: bool,
        binds: &[Bind],
        test: &Expr,
    ) -> Result<bool, EvalFault>
        requires callable { CanEvaluateBelow (E.pre self.now.form.eval)
            (nodes self.now.form.whole.now) }
        requires serves { Evaluates (E.post self.now.form.eval) (program_of self.now.form.fixed.now
            (W.calls self.now.form.within.now) (W.keys self.now.form.within.now)) }
        requires late_callable { CanEvaluateLate (L.pre self.now.late)
            (nodes self.now.form.whole.now) }
        requires late_serves { EvaluatesLate (L.post self.now.late) (program_of
            self.now.form.fixed.now (W.calls self.now.form.within.now)
            (W.keys self.now.form.within.now)) }
        requires within { total (map bind_nodes binds.now) + nodes test.now
            < nodes self.now.form.whole.now }
        ensures { let p = program_of self.now.form.fixed.now (W.calls self.now.form.within.now)
            (W.keys self.now.form.within.now) in
            Answers result next.new (quantified decisive (map (bind_outcome p) binds.now)
            (outcome p test.now) (env_of env.now) next.old) }
    {
        match binds {
            [] => self.eval_truth(env, next, test),
            [first, rest @ ..] => {
                let mut items = self.eval_late(env, next, first.source.get())?;
                let truth = self.eval_items(env, next, decisive, first, &mut items, rest, test);
                drop(items);
                truth
            }
        }
    }

    /// One item of a quantifier's binding after another, until the rest decides (XPath 2.0, 3.9).
    #[cycle(binds)]
    #[inline(never)]
    pub(crate) fn eval_items(
        &self,
        env: &Env,
        next: &mut u64,
        decisive: bool,
        bind: &Bind,
        items: &mut Seq,
        rest: &[Bind],
        test: &Expr,
    ) -> Result<bool, EvalFault>
        requires callable { CanEvaluateBelow (E.pre self.now.form.eval)
            (nodes self.now.form.whole.now) }
        requires serves { Evaluates (E.post self.now.form.eval) (program_of self.now.form.fixed.now
            (W.calls self.now.form.within.now) (W.keys self.now.form.within.now)) }
        requires late_callable { CanEvaluateLate (L.pre self.now.late)
            (nodes self.now.form.whole.now) }
        requires late_serves { EvaluatesLate (L.post self.now.late) (program_of
            self.now.form.fixed.now (W.calls self.now.form.within.now)
            (W.keys self.now.form.within.now)) }
        requires within { total (map bind_nodes rest.now) + nodes test.now
            < nodes self.now.form.whole.now }
        ensures { let p = program_of self.now.form.fixed.now (W.calls self.now.form.within.now)
            (W.keys self.now.form.within.now) in
            Answers result next.new (item_decides decisive (bind_outcome p bind.now)
            (quantified decisive (map (bind_outcome p) rest.now) (outcome p test.now))
            (env_of env.now) (given items.old.moves) next.old) }
    {
        let mut bound = Vec::new(self.form.alloc);
        'turns: while push_next(self.form.alloc, &mut bound, bind, items)? {
            let scope = Scope::Inner {
                variables: bound.as_slice(),
                outer: &*env.locals,
            };
            let inner = Env {
                locals: &scope,
                focus: &*env.focus,
                state: &*env.state,
            };
            let truth = self.eval_binds(&inner, next, decisive, rest, test)?;
            pop_variable(&mut bound);
            if truth == decisive {
                return Ok(decisive);
            }
        }
        Ok(!decisive)
    }
}
