// Tokens and pieces.
ghost use Rattle.std.specs.Prelude.{◌≡◌, ◌++◌, ◌∷◌, [], IfOk, OnOk};
ghost use Rattle.std.specs.Fmt.{signed_decimal};
ghost use Rattle.expr_keys.specs.Keys.{key_text};
ghost use Rattle.query_pages.specs.TokenTexts.Spellings.{token_text, piece_text, name_text, number_text};

use crate::token_writer::characters::{push_ascii, push_chars, push_literal};
use expr_terms::{Key, Token, key_text};
use query_pieces::Context;
use std::alloc::{AllocError, Global};
use xt_names::{Text, TextBuilder};

/// Writes a token of expressions, or the front of a direct element, at the end of the text; a piece
/// within a direct element writes nothing (XPath 2.0, A.2).
pub fn push_token(alloc: Global, out: &mut TextBuilder, token: &Token) -> Result<(), AllocError>
    ensures { OnOk result (out.new ≡ out.old ++ token_text token.now) }
{
    match token {
        Token::Key(key) => push_key(out, *key),
        Token::Name(n) => out.push_text(n),
        Token::Qname(p, n) => push_pair(out, p, n),
        Token::AnyLocal(p) => push_any_local(out, p),
        Token::AnyPrefix(n) => push_any_prefix(out, n),
        Token::Digits(n) => push_number(alloc, out, *n),
        Token::Quoted(text) => push_literal(out, text),
        Token::StartTagOpen(p, n) => push_front(out, p, n),
        _ => Ok(()),
    }
}

/// Writes a piece of a direct element in its context at the end of the text, an attribute with the
/// space before it; a token of expressions writes nothing (XQuery 1.0, 3.7.1).
pub fn push_piece(out: &mut TextBuilder, context: Context, token: &Token) -> Result<(), AllocError>
    ensures { OnOk result (out.new ≡ out.old ++ piece_text context token.now) }
{
    match token {
        Token::ChildTagOpen(p, n) => push_front(out, p, n),
        Token::Attribute(p, n) => push_attribute(out, p, n),
        Token::AttributeEnd => out.push('"'),
        Token::TagEnd => out.push('>'),
        Token::EmptyEnd => push_ascii(out, "/>"),
        Token::EndTag(p, n) => push_shut(out, p, n),
        Token::Chars(text, literal) => push_chars(out, context, text, *literal),
        Token::EnclosedOpen => out.push('{'),
        _ => Ok(()),
    }
}

#[tactic(auto, using(expr_tokens::proofs::KeyLemmas::ascii_key))]
fn push_key(out: &mut TextBuilder, key: Key) -> Result<(), AllocError>
    ensures { OnOk result (out.new ≡ out.old ++ key_text key) }
{
    push_ascii(out, key_text(key))
}

fn push_pair(out: &mut TextBuilder, prefix: &Text, local: &Text) -> Result<(), AllocError>
    ensures { OnOk result (out.new ≡ out.old ++ (prefix.now ++ 58 ∷ local.now)) }
{
    out.push_text(prefix)?;
    out.push(':')?;
    out.push_text(local)?;
    Ok(())
}

fn push_any_local(out: &mut TextBuilder, prefix: &Text) -> Result<(), AllocError>
    ensures { OnOk result (out.new ≡ out.old ++ (prefix.now ++ 58 ∷ 42 ∷ [])) }
{
    out.push_text(prefix)?;
    push_ascii(out, ":*")?;
    Ok(())
}

fn push_any_prefix(out: &mut TextBuilder, local: &Text) -> Result<(), AllocError>
    ensures { OnOk result (out.new ≡ out.old ++ 42 ∷ 58 ∷ local.now) }
{
    push_ascii(out, "*:")?;
    out.push_text(local)?;
    Ok(())
}

/// A negative number writes nothing, since no token is one.
#[tactic(auto, using(crate::proofs::TokenWriter::Names::number_is))]
fn push_number(alloc: Global, out: &mut TextBuilder, number: i64) -> Result<(), AllocError>
    ensures { OnOk result (out.new ≡ out.old ++ number_text number) }
{
    if number < 0 {
        return Ok(());
    }
    let text = number_text(alloc, number)?;
    out.push_text(&text)
}

fn number_text(alloc: Global, number: i64) -> Result<Text, AllocError>
    ensures { IfOk result (λ text. text ≡ signed_decimal number) }
{
    Text::of_string(number.to_string(alloc)?)
}

/// A name, with a prefix or without.
#[tactic(auto, using(crate::proofs::TokenWriter::Names::names))]
fn push_name(out: &mut TextBuilder, prefix: &Text, local: &Text) -> Result<(), AllocError>
    ensures { OnOk result (out.new ≡ out.old ++ name_text prefix.now local.now) }
{
    if prefix.is_empty() {
        out.push_text(local)
    } else {
        push_pair(out, prefix, local)
    }
}

fn push_front(out: &mut TextBuilder, prefix: &Text, local: &Text) -> Result<(), AllocError>
    ensures { OnOk result (out.new ≡ out.old ++ 60 ∷ name_text prefix.now local.now) }
{
    out.push('<')?;
    push_name(out, prefix, local)?;
    Ok(())
}

fn push_attribute(out: &mut TextBuilder, prefix: &Text, local: &Text) -> Result<(), AllocError>
    ensures { OnOk result (out.new ≡ out.old
        ++ 32 ∷ (name_text prefix.now local.now ++ 61 ∷ 34 ∷ [])) }
{
    out.push(' ')?;
    push_name(out, prefix, local)?;
    push_ascii(out, "=\"")?;
    Ok(())
}

fn push_shut(out: &mut TextBuilder, prefix: &Text, local: &Text) -> Result<(), AllocError>
    ensures { OnOk result (out.new ≡ out.old
        ++ 60 ∷ 47 ∷ (name_text prefix.now local.now ++ 62 ∷ [])) }
{
    push_ascii(out, "</")?;
    push_name(out, prefix, local)?;
    out.push('>')?;
    Ok(())
}
