//! The raw value of an expression that can be printed breaks no static rule (XPath 2.0, 2.1.1, 2.5
//! and 3.10.2; XQuery 1.0, 3.7.1.1 and 3.8.1). Definitions and laws alone.
//!
//! That it can be printed says that each prefix is declared and each type known. `specs/Keeps` says
//! what else is asked: casts to types that casts are to, two names for the item and the position of
//! a `for`, and different names for the attributes of a direct element.

ghost use Rattle.std.specs.Prelude.{◌≡◌, [], true, false};
ghost use Rattle.xt_types.specs.declared.types.SeqType.{SeqType};
ghost use Rattle.xt_syntax.specs.declared.exprs.Expr.{Expr};
ghost use Rattle.expr_resolve.specs.declared.setting.Setting.{Setting};
ghost use Rattle.expr_resolve.specs.Folds.{broken_of, type_broken};
ghost use Rattle.expr_raws.specs.ControlRaws.Types.{sequence_form};
ghost use Rattle.expr_raws.specs.Raws.{raw_of, is_printable};
ghost use Rattle.raw_laws.specs.CleanRaws.Keeps.{keeps_rules};

/// The raw value of an expression that can be printed and keeps the rules breaks none, under the
/// same prefixes, where boundary white space stays. That of a sequence type that can be printed
/// breaks none either.
/// (XPath 2.0, 2.1.1, 2.5 and 3.10.2; XQuery 1.0, 3.7.1.1 and 3.8.1)
pub fn raw_values_break_nothing()
    ensures whole { (s : Setting) (e : Expr) → s.strip ≡ false → is_printable s.prefixes e ≡ true
        → keeps_rules e ≡ true → broken_of s (raw_of s.prefixes e) ≡ [] }
    ensures kind { (s : Setting) (t : SeqType) → (sequence_form s.prefixes t).can ≡ true
        → type_broken s (sequence_form s.prefixes t).raw ≡ [] }
{}
