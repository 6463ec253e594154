// The tokens of the grammar that the tokens of a text are.
ghost use Rattle.std.specs.Prelude.{◌≡◌, IfOk, MatchOption, true};
ghost use Rattle.std.specs.Str.{chars};
ghost use Rattle.query_pieces.specs.Spellings.{is_literal, Spells};

use crate::literals::said;
use expr_terms::Token;
use expr_tokens::{term, unquoted};
use std::alloc::{AllocError, Global};
use xpath_lex::TokenKind;

fn is_literal(kind: TokenKind) -> bool
    ensures { result ≡ is_literal kind }
{
    match kind {
        TokenKind::Literal => true,
        _ => false,
    }
}

/// The literal that is written so, quotes included; None where a reference in it is wrong.
fn literal(alloc: Global, text: &str) -> Result<Option<Token>, AllocError>
    ensures { IfOk result (λ found. (kind : TokenKind) → is_literal kind ≡ true → MatchOption found
        ((t : Token) → Spells kind (chars text.now) t → ⊥) (λ t. Spells kind (chars text.now) t)) }
{
    let inside = unquoted(alloc, text)?;
    match said(alloc, inside.as_str())? {
        Some(said) => Ok(Some(Token::Quoted(said))),
        None => Ok(None),
    }
}

/// The token of the grammar that a token of a text is; None where it is in no production.
pub(crate) fn spelled(
    alloc: Global,
    kind: TokenKind,
    text: &str,
) -> Result<Option<Token>, AllocError>
    ensures { IfOk result (λ found. MatchOption found
        ((t : Token) → Spells kind (chars text.now) t → ⊥) (λ t. Spells kind (chars text.now) t)) }
{
    if is_literal(kind) {
        literal(alloc, text)
    } else {
        term(alloc, kind, text)
    }
}
