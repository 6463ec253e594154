//! The texts of the tokens of an expression can be written, where its names and texts are those
//! that XML allows (Namespaces in XML 1.0, 4; XPath 2.0, A.2; XQuery 1.0, A.2). Definitions and
//! laws alone.
//!
//! `specs/Keeps` says what else is asked: prefixes are NCNames, and so is the name of each `*:n`,
//! and integers have 64 bits.

ghost use Rattle.std.specs.Prelude.{◌≡◌, true};
ghost use Rattle.xt_syntax.specs.declared.exprs.Expr.{Expr};
ghost use Rattle.xt_syntax.specs.declared.prefixes.Prefixes.{Prefixes};
ghost use Rattle.closed_queries.specs.ExprTexts.{has_sound_texts};
ghost use Rattle.query_pages.specs.TokenTexts.Written.{is_written};
ghost use Rattle.expr_raws.specs.Raws.{tokens_of, is_printable};
ghost use Rattle.token_laws.specs.WrittenTokens.Fit.{are_fit};
ghost use Rattle.token_laws.specs.FitTokens.Keeps.{are_kept, are_prefixes};

/// The tokens of an expression that can be printed have texts that can be written, and so they can
/// be written, where its names and texts are those that XML allows.
/// (Namespaces in XML 1.0, 4; XQuery 1.0, 3.7.1 and A.2)
pub fn tokens_are_fit()
    ensures fit { (p : Prefixes) (e : Expr) → are_prefixes p.bound ≡ true
        → has_sound_texts e ≡ true → is_printable p e ≡ true → are_kept (tokens_of p e) ≡ true
        → are_fit (tokens_of p e) ≡ true }
    ensures written { (p : Prefixes) (e : Expr) → are_prefixes p.bound ≡ true
        → has_sound_texts e ≡ true → is_printable p e ≡ true → are_kept (tokens_of p e) ≡ true
        → is_written (tokens_of p e) ≡ true }
{}
