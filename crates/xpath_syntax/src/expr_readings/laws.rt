// What texts spell.
ghost use Rattle.std.specs.Prelude.{◌≡◌, ◌≤◌, ◌↔◌, ℕ, List};
ghost use Rattle.xt_syntax.specs.declared.exprs.Expr.{Expr};
ghost use Rattle.expr_terms.specs.declared.raws.Raw.{Raw};
ghost use Rattle.expr_terms.specs.Nest.{raw_nest_of};
ghost use Rattle.expr_reader.specs.declared.readings.Reading.TheVariants.{Value};
ghost use Rattle.expr_resolve.specs.declared.setting.Setting.{Setting};
ghost use Rattle.xpath_syntax.specs.Readings.{value};
ghost use Rattle.xpath_syntax.specs.ExprReadings.Readings.{expr_reading};
ghost use Rattle.xpath_syntax.specs.ExprReadings.Readings.{raw_reading, type_reading};
ghost use Rattle.xpath_syntax.specs.ExprReadings.Spelled.{IsRead, IsTypeRead, Spells, SpellsWithin};

/// A text spells at most one expression (XPath 2.0, A).
pub fn spells_one()
    ensures { (s : Setting) (text : List ℕ) (a b : Expr) → Spells s text a → Spells s text b → a ≡ b }
{}

/// What a text is read as is what it spells, exactly where that nests no deeper than the limit (XPath
/// 2.0, 2.5.3 and A).
pub fn reads_what_is_written()
    ensures expressions { (k : ℕ) (text : List ℕ) (raw : Raw)
        → (IsRead text raw × (raw_nest_of raw ≤ k)) ↔ (raw_reading k text ≡ Value raw) }
    ensures types { (k : ℕ) (text : List ℕ) (raw : Raw)
        → (IsTypeRead text raw × (raw_nest_of raw ≤ k)) ↔ (type_reading k text ≡ Value raw) }
{}

/// The reading of a text gives the expression exactly where the text spells it within the limit
/// (XPath 2.0, A).
pub fn reads_what_is_spelled()
    ensures { (s : Setting) (k : ℕ) (text : List ℕ) (a : Expr)
        → SpellsWithin s k text a ↔ (expr_reading s k text ≡ value a) }
{}
