// What texts spell.
ghost use Rattle.std.specs.Prelude.{◌≡◌, ◌↔◌, ℕ, List};
ghost use Rattle.xt_names.specs.declared.codes.Code.{Code};
ghost use Rattle.xt_syntax.specs.declared.exprs.Expr.{Expr};
ghost use Rattle.expr_resolve.specs.declared.setting.Setting.{Setting};
ghost use Rattle.expr_tokens.specs.Terms.{Written};
ghost use Rattle.xpath_syntax.specs.Readings.{reading, value};
ghost use Rattle.xpath_syntax.specs.Spelled.{Spells, SpellsWithin, Breaks};

/// Tokens spell at most one expression, and none of which a static rule is broken.
pub fn spells_one()
    ensures one { (s : Setting) (ts : List Written) (a b : Expr) → Spells s ts a → Spells s ts b → a ≡ b }
    ensures unbroken { (s : Setting) (ts : List Written) (a : Expr) (c : Code) → Spells s ts a → Breaks s ts c → ⊥ }
{}

/// The reading of tokens gives the expression exactly where they spell it within the limit.
pub fn reads_what_is_spelled()
    ensures { (s : Setting) (k : ℕ) (ts : List Written) (a : Expr) → SpellsWithin s k ts a ↔ (reading s k ts ≡ value a) }
{}
