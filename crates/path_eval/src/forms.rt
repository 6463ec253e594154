// The forms, one by one.
ghost use Rattle.std.specs.Prelude.{◌≡◌, ◌<◌, true};
ghost use Rattle.path_eval.specs.Forms.{asks_at_items};
ghost use Rattle.path_eval.specs.Lates.{CanEvaluateLate, EvaluatesLate};
ghost use Rattle.eval_scopes.specs.Scopes.{env_of, program_of};
ghost use Rattle.eval_steps.specs.EvalInner.Inner.{CanEvaluateBelow, Evaluates};
ghost use Rattle.eval_steps.specs.EvalLates.Late.{AnswersLate};
ghost use Rattle.eval_steps.specs.Sizes.{nodes};
ghost use Rattle.eval_steps.specs.ValueSlots.Slots.{Leaves};
ghost use Rattle.expr_meaning.specs.Meaning.{outcome};

use eval_scopes::{Env, EvalFault};
use eval_steps::eval_inner::{Calling, Form};
use lazy_seq::Seq;
use xdm_items::ItemList;
use xt_syntax::Expr;

/// An expression that asks one within it at each item of another.
#[derive(Drop)]
pub struct ItemForm<'a, W, E, L> {
    pub form: Form<'a, W, E>,
    /// What gives the expressions within it as sequences that are walked on demand.
    pub late: L,
}

impl<
    'a,
    W: Calling,
    E: Fn(&Env, &mut u64, &Expr, &mut ItemList) -> Result<(), EvalFault>,
    L: Fn(&Env, &mut u64, &Expr) -> Result<Seq, EvalFault>,
> ItemForm<'a, W, E, L> {
    /// Puts the value of the path, the step, the filter or the quantifier (XPath 2.0, 3.2, 3.3.2 and
    /// 3.9).
    pub fn eval_form(
        &self,
        env: &Env,
        next: &mut u64,
        value: &mut ItemList,
    ) -> Result<(), EvalFault>
        requires callable { CanEvaluateBelow (E.pre self.now.form.eval)
            (nodes self.now.form.whole.now) }
        requires serves { Evaluates (E.post self.now.form.eval) (program_of self.now.form.fixed.now
            (W.calls self.now.form.within.now) (W.keys self.now.form.within.now)) }
        requires late_callable { CanEvaluateLate (L.pre self.now.late)
            (nodes self.now.form.whole.now) }
        requires late_serves { EvaluatesLate (L.post self.now.late) (program_of
            self.now.form.fixed.now (W.calls self.now.form.within.now)
            (W.keys self.now.form.within.now)) }
        requires form { asks_at_items self.now.form.whole.now ≡ true }
        ensures { let p = program_of self.now.form.fixed.now (W.calls self.now.form.within.now)
            (W.keys self.now.form.within.now) in
            Leaves result value.new next.new
            (outcome p self.now.form.whole.now (env_of env.now) next.old) }
    {
        let whole = self.form.whole;
        match whole {
            Expr::Slash(a, b) => self.eval_slash(env, next, whole, a.get(), b.get(), value),
            Expr::Step(axis, test, tests) => {
                self.eval_step(env, next, whole, *axis, test, tests.get(), value)
            }
            Expr::Filter(of, tests) => {
                self.eval_filter(env, next, of.get(), tests.get().as_slice(), value)
            }
            Expr::Quant(every, binds, test) => {
                self.eval_quantifier(env, next, *every, binds.get().as_slice(), test.get(), value)
            }
            _ => unreachable!(),
        }
    }

    /// The value of an expression within it as a sequence.
    #[tactic(auto, unfolding(crate::specs::Lates::CanEvaluateLate, crate::specs::Lates::EvaluatesLate))]
    pub(crate) fn eval_late(&self, env: &Env, next: &mut u64, e: &Expr) -> Result<Seq, EvalFault>
        requires late_callable { CanEvaluateLate (L.pre self.now.late)
            (nodes self.now.form.whole.now) }
        requires late_serves { EvaluatesLate (L.post self.now.late) (program_of
            self.now.form.fixed.now (W.calls self.now.form.within.now)
            (W.keys self.now.form.within.now)) }
        requires within { nodes e.now < nodes self.now.form.whole.now }
        ensures { let p = program_of self.now.form.fixed.now (W.calls self.now.form.within.now)
            (W.keys self.now.form.within.now) in
            AnswersLate result next.new (outcome p e.now (env_of env.now) next.old) }
    {
        (self.late)(env, next, e)
    }
}
