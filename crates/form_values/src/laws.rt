// What operations mean.
ghost use Rattle.std.specs.Prelude.{◌≡◌, ℕ, List, Some};
ghost use Rattle.xdm_items.specs.declared.items.Item.{Item};
ghost use Rattle.xt_syntax.specs.declared.exprs.Expr.{Expr};
ghost use Rattle.expr_meaning.specs.Outcomes.Outcome.{step_outcome};
ghost use Rattle.expr_meaning.specs.Env.{Env, Program};
ghost use Rattle.expr_meaning.specs.Meaning.{outcome};
ghost use Rattle.form_values.specs.Forms.{Answer, EndWith, parts_of, value_of};

/// Where the operands of an operator or of a test of types end, one after another, the whole ends
/// with the value of that operator on their lists, or fails with its error, and takes no further
/// number of a tree (XPath 2.0, 3.3 to 3.5 and 3.10).
pub fn an_operation_gives_the_value_of_its_operands()
    ensures { (p : Program) (e : Expr) (env : Env) (lists : List (List Item)) (answer : Answer)
        (j k : ℕ) → value_of e lists ≡ Some answer → EndWith p env (parts_of e) lists j k →
        outcome p e env j ≡ step_outcome answer k }
{}
