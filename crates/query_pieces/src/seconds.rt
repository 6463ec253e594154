// What the tokens that come next tell of the word before them.
ghost use Rattle.std.specs.Prelude.{◌≡◌};
ghost use Rattle.std.specs.Str.{chars};
ghost use Rattle.expr_terms.specs.Choices.{second_key};
ghost use Rattle.query_pieces.specs.Seconds.{key_of, worded, is_name, second_by, is_brace};

use expr_terms::{Key, Second, is_worded};
use expr_tokens::{key_of_symbol, key_of_word};
use xpath_lex::TokenKind;

/// The key that a token is, if it is one.
fn key_of(kind: TokenKind, text: &str) -> Option<Key>
    ensures { result ≡ key_of kind (chars text.now) }
{
    match kind {
        TokenKind::Word => key_of_word(text),
        TokenKind::Symbol => key_of_symbol(text),
        _ => None,
    }
}

fn worded(other: bool, key: Option<Key>) -> bool
    ensures { result ≡ worded other key }
{
    match key {
        Some(key) => is_worded(key),
        None => other,
    }
}

/// Whether the token is a name.
pub(crate) fn is_name(kind: TokenKind, text: &str) -> bool
    ensures { result ≡ is_name kind (chars text.now) }
{
    match kind {
        TokenKind::Word => worded(true, key_of_word(text)),
        TokenKind::QWord => true,
        TokenKind::Symbol => worded(false, key_of_symbol(text)),
        _ => false,
    }
}

fn second_key(key: Key) -> Second
    ensures { result ≡ second_key key }
{
    match key {
        Key::OpenParen => Second::BeforeParen,
        Key::Colons => Second::BeforeColons,
        Key::Dollar => Second::BeforeDollar,
        Key::OpenBrace => Second::BeforeBrace,
        _ => Second::Alone,
    }
}

/// What the token alone tells of the word before it.
pub(crate) fn second_by(kind: TokenKind, text: &str) -> Second
    ensures { result ≡ second_by (key_of kind (chars text.now)) }
{
    match key_of(kind, text) {
        Some(key) => second_key(key),
        None => Second::Alone,
    }
}

pub(crate) fn is_brace(second: Second) -> bool
    ensures { result ≡ is_brace second }
{
    match second {
        Second::BeforeBrace => true,
        _ => false,
    }
}
