// The tokens of expressions that come next.
ghost use Rattle.std.specs.Prelude.{◌≡◌, ◌+◌, ◌++◌, List, ℕ, length};
ghost use Rattle.std.specs.Str.{chars};
ghost use Rattle.xpath_lex.specs.Readings.{size};
ghost use Rattle.query_pieces.specs.Aheads.{Leads};

use xpath_lex::{TokenKind, token_at};

/// What stands next between tokens of expressions.
#[derive(Clone, Copy)]
pub enum Ahead<'a> {
    /// A token, its text and what is left after it.
    Token(TokenKind, &'a str, &'a str),
    /// The end of the text.
    Over,
    /// Something that no token begins with.
    Fault,
}

/// What is left of the text after so many bytes.
fn behind(text: &str, to: usize) -> &str
    requires { (front : List ℕ) × (rest : List ℕ)
        × (chars text.now ≡ front ++ rest) × (to + size rest ≡ length text.now) }
    ensures { (front rest : List ℕ) → chars text.now ≡ front ++ rest
        → to + size rest ≡ length text.now → chars result.now ≡ rest }
{
    &text[to..]
}

/// What is at the front of the text.
pub(crate) fn next_of(text: &str) -> Ahead<'_>
    ensures { Leads (chars text.now) result }
{
    match token_at(text, 0) {
        Ok(Some(next)) => Ahead::Token(next.kind, next.text, behind(text, next.to)),
        Ok(None) => Ahead::Over,
        Err(_) => Ahead::Fault,
    }
}
