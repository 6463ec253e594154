// Variables.
ghost use Rattle.std.specs.Prelude.{ℕ};
ghost use Rattle.eval_scopes.specs.NodeWalks.Moves.{given};
ghost use Rattle.expr_meaning.specs.Env.{Calls, Keys};
ghost use Rattle.expr_meaning.specs.Values.{variable};
ghost use Rattle.eval_scopes.specs.Scopes.{env_of, program_of};
ghost use Rattle.eval_lates.specs.Late.{AnswersLate};

use eval_scopes::lazy_seq::Seq;
use eval_scopes::{Env, EvalFault, Fixed, variable};
use xt_names::ExprName;

/// The value of a variable, which shares what the variable holds (XPath 2.0, 3.1.2): XPDY0002 where
/// it has none.
#[inline(never)]
pub fn late_variable(fixed: &Fixed, env: &Env, name: &ExprName) -> Result<Seq, EvalFault>
    ensures { (calls : Calls) (keys : Keys) (k : ℕ) → AnswersLate result k
        (variable (program_of fixed.now calls keys) name.now (env_of env.now) k) }
{
    match variable(&*fixed, &*env, name) {
        Ok(value) => Ok(value.copy()?),
        Err(code) => Err(EvalFault::Error(code)),
    }
}
