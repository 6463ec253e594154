// What tokens and pieces do to what is open.
ghost use Rattle.std.specs.Prelude.{◌≡◌};
ghost use Rattle.query_pages.specs.TokenTexts.Texts.{token_change, piece_change};

use expr_terms::{Key, Token};
use query_pieces::{Change, Context, Quote};

/// What a token of expressions, or the front of an element, does to what is open.
pub(crate) fn token_change(token: &Token) -> Change
    ensures { result ≡ token_change token.now }
{
    match token {
        Token::StartTagOpen(_, _) => Change::Enters(Context::Tag),
        Token::Key(Key::OpenBrace) => Change::Enters(Context::Enclosed),
        Token::Key(Key::CloseBrace) => Change::Leaves,
        _ => Change::Stays,
    }
}

/// What a piece of a direct element does to what is open.
pub(crate) fn piece_change(token: &Token) -> Change
    ensures { result ≡ piece_change token.now }
{
    match token {
        Token::ChildTagOpen(_, _) => Change::Enters(Context::Tag),
        Token::Attribute(_, _) => Change::Enters(Context::Attribute(Quote::Double)),
        Token::AttributeEnd => Change::Leaves,
        Token::TagEnd => Change::Becomes(Context::Content),
        Token::EmptyEnd => Change::Leaves,
        Token::EndTag(_, _) => Change::Leaves,
        Token::EnclosedOpen => Change::Enters(Context::Enclosed),
        _ => Change::Stays,
    }
}
