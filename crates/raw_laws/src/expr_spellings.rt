//! The tokens of an expression that can be printed spell it (XPath 2.0, A.1; XQuery 1.0, A.1). A
//! law alone.

ghost use Rattle.std.specs.Prelude.{◌≡◌, [], true};
ghost use Rattle.xt_syntax.specs.declared.exprs.Expr.{Expr};
ghost use Rattle.xt_syntax.specs.declared.prefixes.Prefixes.{Prefixes};
ghost use Rattle.expr_keys.specs.declared.productions.Language.TheVariants.{Xquery as xquery};
ghost use Rattle.expr_keys.specs.declared.productions.Nonterminal.TheVariants as place;
ghost use Rattle.expr_grammar.specs.Grammar.{Derives, Spells};
ghost use Rattle.expr_raws.specs.PathRaws.Forms.{single, at, said};
ghost use Rattle.expr_raws.specs.Raws.{form_of, raw_of, tokens_of, is_printable};

/// The tokens of an expression that can be printed spell its raw value, and in parentheses where it
/// is no single expression they spell one.
/// (XPath 2.0, A.1; XQuery 1.0, A.1)
pub fn tokens_spell()
    ensures whole { (p : Prefixes) (e : Expr) → is_printable p e ≡ true
        → Spells xquery (tokens_of p e) (raw_of p e) }
    ensures single { (p : Prefixes) (e : Expr) → is_printable p e ≡ true
        → Derives xquery place.ExprSingle (said single (form_of p e) []) (at single (form_of p e)) [] }
{}
