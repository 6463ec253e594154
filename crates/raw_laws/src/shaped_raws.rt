//! The direct elements of the raw value of an expression that can be printed end alike, and none
//! has an attribute `xmlns` (XQuery 1.0, 3.7.1). A law alone.

ghost use Rattle.std.specs.Prelude.{◌≡◌, true};
ghost use Rattle.xt_syntax.specs.declared.exprs.Expr.{Expr};
ghost use Rattle.xt_syntax.specs.declared.prefixes.Prefixes.{Prefixes};
ghost use Rattle.closed_queries.specs.ExprTexts.{has_sound_texts};
ghost use Rattle.expr_rules.specs.ExprShapes.Shapes.{is_shaped};
ghost use Rattle.expr_raws.specs.Raws.{raw_of, is_printable};

/// Where XML allows the names and texts of an expression that can be printed, the direct elements
/// in its raw value end with the name that they begin with, and have no attribute `xmlns`.
/// (XQuery 1.0, 3.7.1)
pub fn raw_values_are_shaped()
    ensures { (p : Prefixes) (e : Expr) → has_sound_texts e ≡ true → is_printable p e ≡ true
        → is_shaped (raw_of p e) ≡ true }
{}
