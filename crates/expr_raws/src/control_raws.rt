//! Operators, conditionals, types, quantifiers and FLWOR expressions as raw values (XPath 2.0, 2.5
//! and 3.3 to 3.10; XQuery 1.0, 3.8). Definitions and a law alone.
//!
//! Parentheses stand only where the level of an operator needs them. Variables of `for` that follow
//! one another come after one `for`, and each `let` has one variable.

ghost use Rattle.std.specs.Prelude.{◌≡◌, true};
ghost use Rattle.xt_types.specs.declared.types.SeqType.{SeqType};
ghost use Rattle.expr_raws.specs.ExprControl.Types.{sequence_of};
ghost use Rattle.expr_resolve.specs.declared.setting.Setting.{Setting};
ghost use Rattle.expr_resolve.specs.Folds.{value_of};
ghost use Rattle.expr_raws.specs.ControlRaws.Types.{sequence_form};

/// The raw value of a sequence type that can be printed means the type.
/// (XPath 2.0, 2.5.3)
pub fn types_mean()
    ensures { (s : Setting) (t : SeqType) → (sequence_form s.prefixes t).can ≡ true
        → sequence_of s.prefixes.bound (value_of s (sequence_form s.prefixes t).raw) ≡ t }
{}
