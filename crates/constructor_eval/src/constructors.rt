// The constructors, form by form.
ghost use Rattle.std.specs.Prelude.{◌≡◌, true};
ghost use Rattle.constructor_eval.specs.Constructors.{is_computed, is_direct};
ghost use Rattle.eval_scopes.specs.Scopes.{env_of, program_of};
ghost use Rattle.eval_steps.specs.EvalInner.Inner.{CanEvaluateBelow, Evaluates};
ghost use Rattle.eval_steps.specs.Sizes.{nodes};
ghost use Rattle.eval_steps.specs.ValueSlots.Slots.{Leaves};
ghost use Rattle.expr_meaning.specs.Meaning.{outcome};

use eval_scopes::{Env, EvalFault};
use eval_steps::eval_inner::{Calling, Form};
use xdm_items::ItemList;
use xt_syntax::Expr;

/// A constructor that is evaluated.
#[derive(Drop)]
pub struct Constructor<'a, W, E> {
    pub form: Form<'a, W, E>,
}

impl<
    'a,
    W: Calling,
    E: Fn(&Env, &mut u64, &Expr, &mut ItemList) -> Result<(), EvalFault>,
> Constructor<'a, W, E> {
    /// Puts the node that a computed constructor makes (XQuery 1.0, 3.7.3).
    pub fn eval_computed(
        &self,
        env: &Env,
        next: &mut u64,
        value: &mut ItemList,
    ) -> Result<(), EvalFault>
        requires callable { CanEvaluateBelow (E.pre self.now.form.eval)
            (nodes self.now.form.whole.now) }
        requires serves { Evaluates (E.post self.now.form.eval) (program_of self.now.form.fixed.now
            (W.calls self.now.form.within.now) (W.keys self.now.form.within.now)) }
        requires form { is_computed self.now.form.whole.now ≡ true }
        ensures { let p = program_of self.now.form.fixed.now (W.calls self.now.form.within.now)
            (W.keys self.now.form.within.now) in
            Leaves result value.new next.new
            (outcome p self.now.form.whole.now (env_of env.now) next.old) }
    {
        match self.form.whole {
            Expr::ElemC(name, content) => self.eval_element(env, next, name, content.get(), value),
            Expr::AttrC(name, of) => self.eval_attribute(env, next, name, of.get(), value),
            Expr::DocC(content) => self.eval_document(env, next, content.get(), value),
            Expr::TextC(of) => self.eval_text(env, next, of.get(), value),
            Expr::CommentC(of) => self.eval_comment(env, next, of.get(), value),
            Expr::PiC(name, of) => self.eval_pi(env, next, name, of.get(), value),
            _ => unreachable!(),
        }
    }

    /// Puts the element that a direct element makes (XQuery 1.0, 3.7.1), apart from the others:
    /// direct elements nest most, and so take few frames of the machine.
    pub fn eval_direct(
        &self,
        env: &Env,
        next: &mut u64,
        value: &mut ItemList,
    ) -> Result<(), EvalFault>
        requires callable { CanEvaluateBelow (E.pre self.now.form.eval)
            (nodes self.now.form.whole.now) }
        requires serves { Evaluates (E.post self.now.form.eval) (program_of self.now.form.fixed.now
            (W.calls self.now.form.within.now) (W.keys self.now.form.within.now)) }
        requires form { is_direct self.now.form.whole.now ≡ true }
        ensures { let p = program_of self.now.form.fixed.now (W.calls self.now.form.within.now)
            (W.keys self.now.form.within.now) in
            Leaves result value.new next.new
            (outcome p self.now.form.whole.now (env_of env.now) next.old) }
    {
        match self.form.whole {
            Expr::Direct(name, attributes, parts) => {
                self.eval_written(env, next, name, attributes.get(), parts.get(), value)
            }
            _ => unreachable!(),
        }
    }
}
