// An expression whose parts are evaluated by who knows all forms.
ghost use Rattle.std.specs.Prelude.{◌<◌};
ghost use Rattle.eval_lates.specs.EvalScopes.Answers.{Answers};
ghost use Rattle.eval_lates.specs.EvalScopes.Scopes.{env_of, program_of};
ghost use Rattle.eval_steps.specs.EvalInner.Inner.{CanEvaluateBelow, Evaluates};
ghost use Rattle.eval_steps.specs.Sizes.{nodes};
ghost use Rattle.eval_steps.specs.ValueSlots.Slots.{Leaves};
ghost use Rattle.expr_meaning.specs.Meaning.{outcome};

use crate::eval_inner::within::Calling;
use eval_lates::eval_scopes::{Env, EvalFault, Fixed};
use std::alloc::Global;
use xdm_items::ItemList;
use xt_syntax::Expr;

/// An expression of a form that is in a crate of its own.
#[derive(Drop)]
pub struct Form<'a, W, E> {
    pub alloc: Global,
    pub fixed: &'a Fixed<'a>,
    /// In which program.
    pub within: &'a W,
    pub whole: &'a Expr,
    /// What evaluates the expressions within it.
    pub eval: E,
}

impl<'a, W: Calling, E: Fn(&Env, &mut u64, &Expr, &mut ItemList) -> Result<(), EvalFault>> Form<
    'a,
    W,
    E,
> {
    /// Puts the value of an expression within it.
    #[tactic(auto, unfolding(crate::specs::EvalInner::Inner::CanEvaluateBelow, crate::specs::EvalInner::Inner::Evaluates))]
    pub fn eval_into(
        &self,
        env: &Env,
        next: &mut u64,
        e: &Expr,
        value: &mut ItemList,
    ) -> Result<(), EvalFault>
        requires callable { CanEvaluateBelow (E.pre self.now.eval) (nodes self.now.whole.now) }
        requires serves { Evaluates (E.post self.now.eval) (program_of self.now.fixed.now
            (W.calls self.now.within.now) (W.keys self.now.within.now)) }
        requires within { nodes e.now < nodes self.now.whole.now }
        ensures { let p = program_of self.now.fixed.now (W.calls self.now.within.now)
            (W.keys self.now.within.now) in
            Leaves result value.new next.new (outcome p e.now (env_of env.now) next.old) }
    {
        (self.eval)(env, next, e, value)
    }

    /// The value of an expression within it.
    pub fn eval(&self, env: &Env, next: &mut u64, e: &Expr) -> Result<ItemList, EvalFault>
        requires callable { CanEvaluateBelow (E.pre self.now.eval) (nodes self.now.whole.now) }
        requires serves { Evaluates (E.post self.now.eval) (program_of self.now.fixed.now
            (W.calls self.now.within.now) (W.keys self.now.within.now)) }
        requires within { nodes e.now < nodes self.now.whole.now }
        ensures { let p = program_of self.now.fixed.now (W.calls self.now.within.now)
            (W.keys self.now.within.now) in
            Answers result next.new (outcome p e.now (env_of env.now) next.old) }
    {
        let mut value = ItemList::new(self.alloc);
        self.eval_into(env, next, e, &mut value)?;
        Ok(value)
    }
}
