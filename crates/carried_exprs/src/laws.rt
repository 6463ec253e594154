// What is kept of the form of an expression.
ghost use Rattle.std.specs.Prelude.{◌≡◌, ◌+◌, ◌≤◌, true};
ghost use Rattle.xt_forms.specs.Nest.{nest_of};
ghost use Rattle.xt_forms.specs.Regular.{is_regular_expr};
ghost use Rattle.xt_syntax.specs.declared.exprs.Expr.{Expr};
ghost use Rattle.carried_exprs.specs.Sights.{HasLocalKeys, Setting, Sight};
ghost use Rattle.carried_exprs.specs.Levels.{levels_added};
ghost use Rattle.carried_exprs.specs.Carried.{carried};

/// Where variables hold the focus an expression nests at most two levels more in the query than in the
/// stylesheet, and none more where the focus is the query's own.
pub fn carried_expressions_nest_two_levels_more_at_most()
    ensures { (w : Setting) (e : Expr) (s : Sight) →
        nest_of (carried w e s) ≤ nest_of e + levels_added s }
{}

/// An expression of the form that the grammar gives keeps such a form (XPath 2.0, 3; XQuery 1.0, 3).
pub fn carried_expressions_are_regular()
    ensures { (w : Setting) → HasLocalKeys w → (e : Expr) → is_regular_expr e ≡ true →
        (s : Sight) → is_regular_expr (carried w e s) ≡ true }
{}
