// Values that are walked on demand.
ghost use Rattle.eval_scopes.specs.Scopes.{env_of, program_of};
ghost use Rattle.eval_steps.specs.EvalLates.Late.{AnswersLate};
ghost use Rattle.expr_eval.specs.Serves.{Serves};
ghost use Rattle.expr_meaning.specs.Meaning.{outcome};
ghost use Rattle.expr_meaning.specs.Values.{binary};
ghost use Rattle.operator_values.specs.Numbers.{range_value};

use crate::hosts::{Callee, Host};
use eval_scopes::{Env, EvalFault};
use eval_steps::eval_lates::late_variable;
use lazy_seq::Seq;
use operator_values::range;
use quiet_steps::{has_late_walk, late_walk};
use xdm_items::ItemList;
use xt_names::ExprName;
use xt_syntax::Expr;

impl<'a, G: Callee, F: Fn(&ExprName, &[ItemList], &mut u64) -> Result<ItemList, EvalFault>> Host<
    'a,
    G,
    F,
> {
    /// The value of an expression as a sequence: a variable shares what it holds, a range has no
    /// list, and nothing is walked yet of what one walk along an axis answers (XPath 2.0, 2.3.1 and
    /// 3.3.1).
    #[cycle(eval)]
    #[inline(never)]
    pub fn eval_late(&self, env: &Env, next: &mut u64, e: &Expr) -> Result<Seq, EvalFault>
        requires callable { F.IsAlwaysCallable self.now.calls }
        requires serves { Serves (F.post self.now.calls) (G.calls self.now.given) }
        ensures { let p = program_of self.now.fixed (G.calls self.now.given)
            (G.keys self.now.given) in
            AnswersLate result next.new (outcome p e.now (env_of env.now) next.old) }
    {
        match e {
            Expr::Var(name) => late_variable(&self.fixed, env, name),
            Expr::Range(a, b) => self.eval_range(env, next, a.get(), b.get()),
            _ => {
                if has_late_walk(self.alloc, env, e)? {
                    return late_walk(self.alloc, env, e);
                }
                let list = self.eval(env, next, e)?;
                Ok(Seq::of_list(list))
            }
        }
    }

    /// The integers from one value to the other (XPath 2.0, 3.3.1).
    #[cycle(eval)]
    #[inline(never)]
    pub(crate) fn eval_range(
        &self,
        env: &Env,
        next: &mut u64,
        a: &Expr,
        b: &Expr,
    ) -> Result<Seq, EvalFault>
        requires callable { F.IsAlwaysCallable self.now.calls }
        requires serves { Serves (F.post self.now.calls) (G.calls self.now.given) }
        ensures { let p = program_of self.now.fixed (G.calls self.now.given)
            (G.keys self.now.given) in
            AnswersLate result next.new (binary range_value (outcome p a.now) (outcome p b.now)
            (env_of env.now) next.old) }
    {
        let left = self.eval(env, next, a)?;
        let right = self.eval(env, next, b)?;
        Ok(range(self.alloc, &left, &right)?)
    }
}
