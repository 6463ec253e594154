// The declarations without an expression.
ghost use Rattle.std.specs.Prelude.{◌≡◌, IfOk};
ghost use Rattle.query_grammar.specs.Heads.{is_utf8_text, is_utf8, version_of, namespace_of};
ghost use Rattle.query_grammar.specs.Heads.{in_default, default_of, space_of, ordering_of};
ghost use Rattle.query_grammar.specs.Heads.{copying_of, setting_of, short_of};
ghost use Rattle.query_grammar.specs.Machine.{whole_of};
ghost use Rattle.std.specs.Str.{chars};
ghost use Rattle.expr_keys.specs.Classes.{fits_quoted};

use crate::query_heads::variables::outside_of;
use crate::query_heads::words::{is_named, text_of};
use expr_terms::{Class, Key, Token, fits, fits_key, fits_name, fits_word};
use query_grammar::{Declared, Opening};
use std::alloc::{AllocError, Global};
use xt_names::is_ascii_text;

fn is_utf8_text(text: &str) -> bool
    ensures { result ≡ is_utf8_text (chars text.now) }
{
    is_ascii_text(text, "utf-8")
        || (is_ascii_text(text, "UTF-8")
            || (is_ascii_text(text, "Utf-8")
                || (is_ascii_text(text, "uTf-8")
                    || (is_ascii_text(text, "utF-8")
                        || (is_ascii_text(text, "UTf-8")
                            || (is_ascii_text(text, "UtF-8") || is_ascii_text(text, "uTF-8")))))))
}

/// Whether the token names UTF-8.
fn is_utf8(token: &Token) -> bool
    ensures { result ≡ is_utf8 token.now }
{
    match token {
        Token::Quoted(text) => is_utf8_text(text.as_str()),
        _ => false,
    }
}

fn is_quoted(token: &Token) -> bool
    ensures { result ≡ fits_quoted token.now }
{
    fits(Class::Quoted, token)
}

fn version_of(alloc: Global, tokens: &[Token]) -> Result<Option<Declared>, AllocError>
    ensures { IfOk result (λ found. found ≡ version_of tokens.now) }
{
    match tokens {
        [version] => {
            if is_quoted(version) {
                Ok(Some(Declared::Version(text_of(alloc, version)?)))
            } else {
                Ok(None)
            }
        }
        [version, word, encoding] => {
            if is_quoted(version) && (is_named(word, "encoding") && is_utf8(encoding)) {
                Ok(Some(Declared::Version(text_of(alloc, version)?)))
            } else {
                Ok(None)
            }
        }
        _ => Ok(None),
    }
}

fn namespace_of(alloc: Global, tokens: &[Token]) -> Result<Option<Declared>, AllocError>
    ensures { IfOk result (λ found. found ≡ namespace_of tokens.now) }
{
    match tokens {
        [prefix, equal, uri] => {
            if fits_word(prefix) && (fits_key(Key::Equal, equal) && is_quoted(uri)) {
                let prefix = prefix.copy()?;
                Ok(Some(Declared::Namespace(prefix, text_of(alloc, uri)?)))
            } else {
                Ok(None)
            }
        }
        _ => Ok(None),
    }
}

fn in_default(
    alloc: Global,
    of: &Token,
    word: &Token,
    last: &Token,
) -> Result<Option<Declared>, AllocError>
    ensures { IfOk result (λ found. found ≡ in_default of.now word.now last.now) }
{
    if fits_key(Key::NamespaceWord, word) && is_quoted(last) {
        if fits_key(Key::ElementWord, of) {
            Ok(Some(Declared::ElementDefault(text_of(alloc, last)?)))
        } else if is_named(of, "function") {
            Ok(Some(Declared::FunctionDefault(text_of(alloc, last)?)))
        } else {
            Ok(None)
        }
    } else if fits_key(Key::OrderWord, of)
        && (fits_key(Key::EmptyWord, word) && fits_key(Key::LeastWord, last))
    {
        Ok(Some(Declared::Setter))
    } else {
        Ok(None)
    }
}

fn default_of(alloc: Global, tokens: &[Token]) -> Result<Option<Declared>, AllocError>
    ensures { IfOk result (λ found. found ≡ default_of tokens.now) }
{
    match tokens {
        [of, word, last] => in_default(alloc, of, word, last),
        _ => Ok(None),
    }
}

fn space_of(tokens: &[Token]) -> Option<Declared>
    ensures { result ≡ space_of tokens.now }
{
    match tokens {
        [word] => {
            if is_named(word, "strip") {
                Some(Declared::BoundarySpace(false))
            } else if is_named(word, "preserve") {
                Some(Declared::BoundarySpace(true))
            } else {
                None
            }
        }
        _ => None,
    }
}

fn ordering_of(tokens: &[Token]) -> Option<Declared>
    ensures { result ≡ ordering_of tokens.now }
{
    match tokens {
        [word] => {
            if is_named(word, "ordered") {
                Some(Declared::Setter)
            } else {
                None
            }
        }
        _ => None,
    }
}

fn copying_of(tokens: &[Token]) -> Option<Declared>
    ensures { result ≡ copying_of tokens.now }
{
    match tokens {
        [first, comma, second] => {
            if is_named(first, "no-preserve")
                && (fits_key(Key::Comma, comma) && is_named(second, "no-inherit"))
            {
                Some(Declared::Setter)
            } else {
                None
            }
        }
        _ => None,
    }
}

fn setting_of(alloc: Global, tokens: &[Token]) -> Result<Option<Declared>, AllocError>
    ensures { IfOk result (λ found. found ≡ setting_of tokens.now) }
{
    match tokens {
        [name, text] => {
            if fits_name(name) && is_quoted(text) {
                let name = name.copy()?;
                Ok(Some(Declared::Setting(name, text_of(alloc, text)?)))
            } else {
                Ok(None)
            }
        }
        _ => Ok(None),
    }
}

/// The declaration without an expression that the tokens spell after the two words that open it;
/// None where they spell none.
pub fn whole_of(
    alloc: Global,
    opening: Opening,
    tokens: &[Token],
) -> Result<Option<Declared>, AllocError>
    ensures { IfOk result (λ found. found ≡ whole_of opening tokens.now) }
{
    match opening {
        Opening::Version => version_of(alloc, tokens),
        Opening::Namespace => namespace_of(alloc, tokens),
        Opening::Default => default_of(alloc, tokens),
        Opening::BoundarySpace => Ok(space_of(tokens)),
        Opening::Ordering => Ok(ordering_of(tokens)),
        Opening::CopyNamespaces => Ok(copying_of(tokens)),
        Opening::Setting => setting_of(alloc, tokens),
        Opening::Variable => outside_of(alloc, tokens),
        Opening::Function => Ok(None),
    }
}
