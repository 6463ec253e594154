//! The tokens of an expression that can be printed can be written, where their texts can (XPath
//! 2.0, A.2; XQuery 1.0, 3.7.1 and A.2). Definitions and a law alone.
//!
//! `specs/Fit` says which texts of tokens can be written: names are NCNames, literals are of
//! characters of XML, integers have 64 bits. The law says that nothing else is in the way: braces
//! are balanced, each piece of a direct element stands where it may, and characters of content and
//! of values stand in runs that are read as they are.

ghost use Rattle.std.specs.Prelude.{◌≡◌, true};
ghost use Rattle.xt_syntax.specs.declared.exprs.Expr.{Expr};
ghost use Rattle.xt_syntax.specs.declared.prefixes.Prefixes.{Prefixes};
ghost use Rattle.query_pages.specs.TokenTexts.Written.{is_written};
ghost use Rattle.expr_raws.specs.Raws.{tokens_of, is_printable};
ghost use Rattle.token_laws.specs.WrittenTokens.Fit.{are_fit};

/// The tokens of an expression that can be printed can be written, where the text of each of them
/// can be.
/// (XQuery 1.0, 3.7.1 and A.2)
pub fn tokens_are_written()
    ensures { (p : Prefixes) (e : Expr) → is_printable p e ≡ true
        → are_fit (tokens_of p e) ≡ true → is_written (tokens_of p e) ≡ true }
{}
