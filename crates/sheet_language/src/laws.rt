// What expressions of stylesheets mean.
ghost use Rattle.std.specs.Prelude.{◌≡◌, ◌↔◌, ℕ, List, []};
ghost use Rattle.xt_syntax.specs.declared.exprs.Expr.{Expr};
ghost use Rattle.sheet_values.specs.declared.sheet_texts.places.StaticContext.{StaticContext};
ghost use Rattle.sheet_language.specs.Language.{expr_faults, expr_value};
ghost use Rattle.sheet_language.specs.Meanings.{Means};

/// A text has a value as an expression exactly where it spells one, within 40 levels, that breaks no
/// rule at its place; and the value is what that means (XSLT 2.0, 5.2).
pub fn expressions_mean_what_is_spelled()
    ensures { (p : StaticContext) (text : List ℕ) (e : Expr)
        → Means p text e ↔ ((expr_faults p text ≡ []) × (e ≡ expr_value p text)) }
{}
