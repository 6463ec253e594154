//! The raw value of an expression that can be printed nests no deeper than the expression (XPath
//! 2.0, 3; XQuery 1.0, 3). A law alone.
//!
//! Parentheses count no level, and neither do names, types and characters: so what is read again of
//! the text of an expression is within each limit that the expression is within.

ghost use Rattle.std.specs.Prelude.{◌≡◌, ◌≤◌, true};
ghost use Rattle.xt_syntax.specs.declared.exprs.Expr.{Expr};
ghost use Rattle.xt_syntax.specs.declared.prefixes.Prefixes.{Prefixes};
ghost use Rattle.xt_forms.specs.Nest.{nest_of};
ghost use Rattle.expr_terms.specs.Nest.{raw_nest_of};
ghost use Rattle.expr_raws.specs.Raws.{raw_of, is_printable};

/// The raw value of an expression that can be printed nests no deeper than the expression.
/// (XPath 2.0, 3; XQuery 1.0, 3)
pub fn raw_values_nest()
    ensures { (p : Prefixes) (e : Expr) → is_printable p e ≡ true
        → raw_nest_of (raw_of p e) ≤ nest_of e }
{}
