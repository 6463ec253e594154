// The expressions within a FLWOR expression.
ghost use Rattle.std.specs.Prelude.{◌≤◌};
ghost use Rattle.eval_steps.specs.EvalInner.Inner.{CanEvaluate, Evaluates};
ghost use Rattle.eval_scopes.specs.Answers.{Answers};
ghost use Rattle.eval_scopes.specs.Scopes.{env_of};
ghost use Rattle.eval_steps.specs.Sizes.{flwor_nodes, nodes};
ghost use Rattle.expr_meaning.specs.Env.{bind_all};
ghost use Rattle.expr_meaning.specs.Meaning.{outcome};
ghost use Rattle.flow_eval.specs.Rows.{tuple_of};
ghost use Rattle.eval_steps.specs.ValueSlots.Slots.{Leaves};

use eval_scopes::{Env, EvalFault, Scope, Variable};
use eval_steps::eval_inner::Within;
use std::alloc::Global;
use xdm_items::ItemList;
use xt_syntax::{Expr, Flwor};

/// A FLWOR expression that is evaluated.
#[derive(Drop)]
pub struct Flows<'a, W, E> {
    pub alloc: Global,
    /// In which program.
    pub within: &'a W,
    pub whole: &'a Flwor,
    /// What evaluates the expressions within it.
    pub eval: E,
}

impl<'a, W: Within, E: Fn(&Env, &mut u64, &Expr, &mut ItemList) -> Result<(), EvalFault>> Flows<
    'a,
    W,
    E,
> {
    /// Puts the value of an expression within it.
    #[tactic(auto, unfolding(eval_steps::specs::EvalInner::Inner::CanEvaluate, eval_steps::specs::EvalInner::Inner::Evaluates))]
    pub(crate) fn eval_into(
        &self,
        env: &Env,
        next: &mut u64,
        e: &Expr,
        value: &mut ItemList,
    ) -> Result<(), EvalFault>
        requires callable { CanEvaluate (E.pre self.now.eval) (flwor_nodes self.now.whole.now) }
        requires serves { Evaluates (E.post self.now.eval) (W.program self.now.within.now) }
        requires within { nodes e.now ≤ flwor_nodes self.now.whole.now }
        ensures { let p = W.program self.now.within.now in
            Leaves result value.new next.new (outcome p e.now (env_of env.now) next.old) }
    {
        (self.eval)(env, next, e, value)
    }

    /// The list of an expression after what is bound (XQuery 1.0, 3.8.1).
    #[inline(never)]
    pub(crate) fn eval_behind(
        &self,
        env: &Env,
        next: &mut u64,
        bound: &[Variable],
        e: &Expr,
    ) -> Result<ItemList, EvalFault>
        requires callable { CanEvaluate (E.pre self.now.eval) (flwor_nodes self.now.whole.now) }
        requires serves { Evaluates (E.post self.now.eval) (W.program self.now.within.now) }
        requires within { nodes e.now ≤ flwor_nodes self.now.whole.now }
        ensures { let p = W.program self.now.within.now in
            let inner = bind_all (tuple_of bound.now) (env_of env.now) in
            Answers result next.new (outcome p e.now inner next.old) }
    {
        let scope = Scope::Inner {
            variables: bound,
            outer: &*env.locals,
        };
        let inner = Env {
            locals: &scope,
            focus: &*env.focus,
            state: &*env.state,
        };
        let mut value = ItemList::new(self.alloc);
        self.eval_into(&inner, next, e, &mut value)?;
        Ok(value)
    }
}
