// Paths and steps.
ghost use Rattle.std.specs.Prelude.{◌≡◌, ◌+◌, ◌<◌, map};
ghost use Rattle.xt_syntax.specs.declared.exprs.Expr.TheVariants.{Slash, Step};
ghost use Rattle.eval_scopes.specs.Answers.{Answers};
ghost use Rattle.eval_steps.specs.EvalInner.Inner.{CanEvaluateBelow, Evaluates};
ghost use Rattle.eval_steps.specs.Sizes.{nodes};
ghost use Rattle.xt_names.specs.Lists.{total};
ghost use Rattle.eval_steps.specs.ValueSlots.Slots.{Leaves};
ghost use Rattle.eval_scopes.specs.Scopes.{env_of, program_of};
ghost use Rattle.expr_meaning.specs.Meaning.{outcome};
ghost use Rattle.expr_meaning.specs.Paths.{slash_of, step_of, path_places};
ghost use Rattle.expr_meaning.specs.Outcomes.Outcome.{and_then, for_each, step_outcome};
ghost use Rattle.expr_meaning.specs.Env.{at_focus};

use crate::forms::ItemForm;
use eval_scopes::eval_values::append;
use eval_scopes::{Env, EvalFault, Focus};
use eval_steps::eval_inner::Calling;
use eval_steps::value_slots::put;
use eval_steps::{ordered_items, path_items, path_size, place_in, step_from};
use lazy_seq::Seq;
use quiet_steps::{has_late_walk, late_walk_list};
use xdm_items::{Item, ItemList};
use xt_names::List;
use xt_syntax::Expr;
use xt_types::{Axis, Test};

impl<
    'a,
    W: Calling,
    E: Fn(&Env, &mut u64, &Expr, &mut ItemList) -> Result<(), EvalFault>,
    L: Fn(&Env, &mut u64, &Expr) -> Result<Seq, EvalFault>,
> ItemForm<'a, W, E, L> {
    /// `a/b`, which is walked on demand where one walk along an axis answers it (XPath 2.0, 3.2).
    #[inline(never)]
    pub(crate) fn eval_slash(
        &self,
        env: &Env,
        next: &mut u64,
        whole: &Expr,
        a: &Expr,
        b: &Expr,
        value: &mut ItemList,
    ) -> Result<(), EvalFault>
        requires callable { CanEvaluateBelow (E.pre self.now.form.eval)
            (nodes self.now.form.whole.now) }
        requires serves { Evaluates (E.post self.now.form.eval) (program_of self.now.form.fixed.now
            (W.calls self.now.form.within.now) (W.keys self.now.form.within.now)) }
        requires within { nodes a.now + nodes b.now < nodes self.now.form.whole.now }
        requires form { whole.now ≡ Slash a.now b.now }
        ensures { let p = program_of self.now.form.fixed.now (W.calls self.now.form.within.now)
            (W.keys self.now.form.within.now) in
            Leaves result value.new next.new (slash_of (outcome p a.now) (outcome p b.now)
            (env_of env.now) next.old) }
    {
        if has_late_walk(self.form.alloc, env, whole)? {
            return put(late_walk_list(self.form.alloc, env, whole), value);
        }
        let nodes = self.form.eval(env, next, a)?;
        let items = self.eval_each(env, next, nodes.as_slice(), b)?;
        put(path_items(self.form.alloc, items), value)
    }

    /// The right side of a path at each node of the left one (XPath 2.0, 3.2).
    #[inline(never)]
    pub(crate) fn eval_each(
        &self,
        env: &Env,
        next: &mut u64,
        left: &[Item],
        b: &Expr,
    ) -> Result<ItemList, EvalFault>
        requires callable { CanEvaluateBelow (E.pre self.now.form.eval)
            (nodes self.now.form.whole.now) }
        requires serves { Evaluates (E.post self.now.form.eval) (program_of self.now.form.fixed.now
            (W.calls self.now.form.within.now) (W.keys self.now.form.within.now)) }
        requires within { nodes b.now < nodes self.now.form.whole.now }
        ensures { let p = program_of self.now.form.fixed.now (W.calls self.now.form.within.now)
            (W.keys self.now.form.within.now) in
            Answers result next.new (and_then (step_outcome (path_places left.now) next.old)
            (for_each (λ f. outcome p b.now (at_focus (env_of env.now) f)))) }
    {
        let size = path_size(left)?;
        let mut list = ItemList::new(self.form.alloc);
        let mut position = 0;
        for item in left {
            position += 1;
            let place = place_in(size, position);
            let focus = Focus::At {
                item,
                position: place,
                size,
            };
            let inner = Env {
                locals: &*env.locals,
                focus: &focus,
                state: &*env.state,
            };
            let more = self.form.eval(&inner, next, b)?;
            list = append(list, more)?;
        }
        Ok(list)
    }

    /// `axis::test[p]..`, which is walked on demand where one walk along the axis answers it (XPath
    /// 2.0, 3.2.1).
    #[inline(never)]
    pub(crate) fn eval_step(
        &self,
        env: &Env,
        next: &mut u64,
        whole: &Expr,
        axis: Axis,
        test: &Test,
        tests: &List<Expr>,
        value: &mut ItemList,
    ) -> Result<(), EvalFault>
        requires callable { CanEvaluateBelow (E.pre self.now.form.eval)
            (nodes self.now.form.whole.now) }
        requires serves { Evaluates (E.post self.now.form.eval) (program_of self.now.form.fixed.now
            (W.calls self.now.form.within.now) (W.keys self.now.form.within.now)) }
        requires within { total (map nodes tests.now) < nodes self.now.form.whole.now }
        requires form { whole.now ≡ Step axis test.now tests.now }
        ensures { let p = program_of self.now.form.fixed.now (W.calls self.now.form.within.now)
            (W.keys self.now.form.within.now) in
            Leaves result value.new next.new (step_of axis test.now (map (outcome p) tests.now)
            (env_of env.now) next.old) }
    {
        if has_late_walk(self.form.alloc, env, whole)? {
            return put(late_walk_list(self.form.alloc, env, whole), value);
        }
        let items = step_from(self.form.alloc, env, axis, test)?;
        let kept = self.eval_predicates(env, next, tests.as_slice(), items)?;
        put(ordered_items(self.form.alloc, kept), value)
    }
}
