//! Expressions as raw values, with parentheses only where the levels of operators need them, and
//! the tokens that spell them (XPath 2.0, A.4; XQuery 1.0, A.4). Definitions and a law alone.
//!
//! `specs/Raws` has the form of each expression under prefixes: its raw value, its tokens, and
//! whether it can be printed. The law says that the raw value means the expression.
#![tactic(auto)]

pub mod control_raws;
pub mod element_raws;
pub mod path_raws;

ghost use Rattle.std.specs.Prelude.{◌≡◌, true, false};
ghost use Rattle.xt_syntax.specs.declared.exprs.Expr.{Expr};
ghost use Rattle.expr_rules.specs.declared.expr_meant.meant.Meant.TheVariants as meant;
ghost use Rattle.expr_resolve.specs.declared.setting.Setting.{Setting};
ghost use Rattle.expr_resolve.specs.Folds.{value_of};
ghost use Rattle.expr_raws.specs.Raws.{raw_of, is_printable};

/// The raw value of an expression that can be printed means the expression, under the same
/// prefixes, where boundary white space stays.
/// (XPath 2.0, 3 and A.4; XQuery 1.0, 3)
pub fn raw_values_mean()
    ensures { (s : Setting) (e : Expr) → s.strip ≡ false → is_printable s.prefixes e ≡ true
        → value_of s (raw_of s.prefixes e) ≡ meant.Expr e }
{}
