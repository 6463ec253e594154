// The words of a prolog.
ghost use Rattle.std.specs.Prelude.{◌≡◌, nat_lt, IsTrue, IfOk};
ghost use Rattle.std.specs.List.{list_all};
ghost use Rattle.query_grammar.specs.Words.{is_named, declared_by, versioned, opening_of};
ghost use Rattle.query_grammar.specs.Words.{may_open, text_of};
ghost use Rattle.query_grammar.specs.Machine.{is_head, is_head_key};

use expr_terms::{Key, Token, fits_key, same_key};
use query_grammar::Opening;
use std::alloc::{AllocError, Global};
use xt_names::{Text, TextBuilder, is_ascii_text};

/// Whether the token is this word, which is no key.
pub fn is_named(token: &Token, word: &str) -> bool
    requires { IsTrue (list_all (λ b. nat_lt b 128) word.now) }
    ensures { result ≡ is_named word.now token.now }
{
    match token {
        Token::Name(name) => is_ascii_text(name.as_str(), word),
        _ => false,
    }
}

/// The text of a literal.
pub fn text_of(alloc: Global, token: &Token) -> Result<Text, AllocError>
    ensures { IfOk result (λ text. text ≡ text_of token.now) }
{
    match token {
        Token::Quoted(text) => text.copy(),
        _ => TextBuilder::new(alloc).finish(),
    }
}

fn declared_by(token: &Token) -> Option<Opening>
    ensures { result ≡ declared_by token.now }
{
    if fits_key(Key::NamespaceWord, token) {
        Some(Opening::Namespace)
    } else if is_named(token, "default") {
        Some(Opening::Default)
    } else if is_named(token, "boundary-space") {
        Some(Opening::BoundarySpace)
    } else if is_named(token, "ordering") {
        Some(Opening::Ordering)
    } else if is_named(token, "copy-namespaces") {
        Some(Opening::CopyNamespaces)
    } else if is_named(token, "option") {
        Some(Opening::Setting)
    } else if is_named(token, "variable") {
        Some(Opening::Variable)
    } else if is_named(token, "function") {
        Some(Opening::Function)
    } else {
        None
    }
}

fn versioned(token: &Token) -> Option<Opening>
    ensures { result ≡ versioned token.now }
{
    if is_named(token, "version") {
        Some(Opening::Version)
    } else {
        None
    }
}

/// What two words at the front of a query or after a declaration open; None where they open no
/// declaration.
pub fn opening_of(first: &Token, second: &Token) -> Option<Opening>
    ensures { result ≡ opening_of first.now second.now }
{
    if is_named(first, "declare") {
        declared_by(second)
    } else if is_named(first, "xquery") {
        versioned(second)
    } else {
        None
    }
}

/// Whether the token may be the first of two words that open a declaration.
pub fn may_open(token: &Token) -> bool
    ensures { result ≡ may_open token.now }
{
    is_named(token, "declare") || is_named(token, "xquery")
}

fn is_head_key(key: Key) -> bool
    ensures { result ≡ is_head_key key }
{
    !same_key(Key::Semicolon, key)
        && (!same_key(Key::Assign, key)
            && (!same_key(Key::OpenBrace, key) && !same_key(Key::Less, key)))
}

/// Whether the token may be in a declaration before its expression.
pub fn is_head(token: &Token) -> bool
    ensures { result ≡ is_head token.now }
{
    match token {
        Token::Key(key) => is_head_key(*key),
        Token::Name(_) => true,
        Token::Qname(_, _) => true,
        Token::AnyLocal(_) => true,
        Token::AnyPrefix(_) => true,
        Token::Digits(_) => true,
        Token::Quoted(_) => true,
        _ => false,
    }
}
