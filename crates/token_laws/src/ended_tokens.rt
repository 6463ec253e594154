//! What follows an expression comes after its tokens, whatever it is (XPath 2.0, A.1; XQuery 1.0,
//! A.1). A law alone.

ghost use Rattle.std.specs.Prelude.{◌≡◌, List, ◌++◌, true};
ghost use Rattle.xt_types.specs.declared.types.SeqType.{SeqType};
ghost use Rattle.xt_syntax.specs.declared.exprs.Expr.{Expr};
ghost use Rattle.xt_syntax.specs.declared.prefixes.Prefixes.{Prefixes};
ghost use Rattle.expr_keys.specs.declared.tokens.Token.{Token};
ghost use Rattle.expr_raws.specs.ControlRaws.Types.{sequence_form};
ghost use Rattle.expr_raws.specs.Raws.{form_of, is_printable};

/// Tokens that follow an expression that can be printed come after its own, and so they do after
/// those of a sequence type.
/// (XPath 2.0, A.1; XQuery 1.0, A.1)
pub fn tokens_end()
    ensures whole { (p : Prefixes) (e : Expr) (ts rest : List Token) → is_printable p e ≡ true
        → (form_of p e).tokens (ts ++ rest) ≡ (form_of p e).tokens ts ++ rest }
    ensures kind { (p : Prefixes) (t : SeqType) (ts rest : List Token)
        → (sequence_form p t).can ≡ true
        → (sequence_form p t).tokens (ts ++ rest) ≡ (sequence_form p t).tokens ts ++ rest }
{}
