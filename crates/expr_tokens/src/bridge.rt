// The tokens of a text in the grammar.
ghost use Rattle.std.specs.Prelude.{◌≡◌, IfOk, map, option_map};
ghost use Rattle.std.specs.Str.{chars};
ghost use Rattle.expr_tokens.specs.Terms.{number_term, literal_term, word_term, qname_term, any_local_term, any_prefix_term, symbol_term, term_of, terms_of, written};

use crate::keys::{key_of_symbol, key_of_word};
use crate::literals::{number, unquoted};
use expr_terms::Token;
use std::alloc::{AllocError, Global};
use text_operations::split_at_first;
use xpath_lex::TokenKind;
use xt_names::Text;

fn number_term(text: &str) -> Option<Token>
    ensures { result ≡ number_term (chars text.now) }
{
    match number(text) {
        Some(value) => Some(Token::Digits(value)),
        None => None,
    }
}

fn word_term(alloc: Global, text: &str) -> Result<Token, AllocError>
    ensures { IfOk result (λ term. term ≡ word_term (chars text.now)) }
{
    match key_of_word(text) {
        Some(key) => Ok(Token::Key(key)),
        None => Ok(Token::Name(Text::make(alloc, text)?)),
    }
}

fn symbol_term(text: &str) -> Option<Token>
    ensures { result ≡ symbol_term (chars text.now) }
{
    match key_of_symbol(text) {
        Some(key) => Some(Token::Key(key)),
        None => None,
    }
}

#[tactic(auto, using(xt_names::proofs::TextLemmas::colon_chars))]
fn qname_term(alloc: Global, text: &str) -> Result<Option<Token>, AllocError>
    ensures { IfOk result (λ term. term ≡ qname_term (chars text.now)) }
{
    match split_at_first(text, ":") {
        Some((prefix, local)) => {
            let prefix = Text::make(alloc, prefix)?;
            let local = Text::make(alloc, local)?;
            Ok(Some(Token::Qname(prefix, local)))
        }
        None => Ok(None),
    }
}

#[tactic(auto, using(xt_names::proofs::TextLemmas::colon_chars))]
fn any_local_term(alloc: Global, text: &str) -> Result<Option<Token>, AllocError>
    ensures { IfOk result (λ term. term ≡ any_local_term (chars text.now)) }
{
    match split_at_first(text, ":") {
        Some((prefix, _)) => Ok(Some(Token::AnyLocal(Text::make(alloc, prefix)?))),
        None => Ok(None),
    }
}

#[tactic(auto, using(xt_names::proofs::TextLemmas::colon_chars))]
fn any_prefix_term(alloc: Global, text: &str) -> Result<Option<Token>, AllocError>
    ensures { IfOk result (λ term. term ≡ any_prefix_term (chars text.now)) }
{
    match split_at_first(text, ":") {
        Some((_, local)) => Ok(Some(Token::AnyPrefix(Text::make(alloc, local)?))),
        None => Ok(None),
    }
}

fn literal_term(alloc: Global, text: &str) -> Result<Token, AllocError>
    ensures { IfOk result (λ term. term ≡ literal_term (chars text.now)) }
{
    Ok(Token::Quoted(unquoted(alloc, text)?))
}

/// The token of the grammar that a token of a text is; None where it is in no production.
pub fn term(alloc: Global, kind: TokenKind, text: &str) -> Result<Option<Token>, AllocError>
    ensures { IfOk result (λ term. term ≡ term_of kind (chars text.now)) }
{
    match kind {
        TokenKind::Integer => Ok(number_term(text)),
        TokenKind::Literal => Ok(Some(literal_term(alloc, text)?)),
        TokenKind::Word => Ok(Some(word_term(alloc, text)?)),
        TokenKind::QWord => qname_term(alloc, text),
        TokenKind::AnyLocal => any_local_term(alloc, text),
        TokenKind::AnyPrefix => any_prefix_term(alloc, text),
        TokenKind::Symbol => Ok(symbol_term(text)),
    }
}

/// The tokens of the grammar that the tokens of a text are; None where one of them is in no production.
#[tactic(auto, using(crate::proofs::TermLemmas::terms))]
pub fn terms(
    alloc: Global,
    tokens: &[xpath_lex::Token<'_>],
) -> Result<Option<Vec<Token>>, AllocError>
    ensures { IfOk result (λ found. option_map (λ v. v.items) found ≡ terms_of (map written tokens.now)) }
{
    let mut made = Vec::new(alloc);
    for token in tokens {
        match term(alloc, token.kind, token.text)? {
            Some(term) => made.push(term)?,
            None => return Ok(None),
        }
    }
    Ok(Some(made))
}
