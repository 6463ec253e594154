// Characters: literals, content and values of attributes.
ghost use Rattle.std.specs.Prelude.{◌≡◌, ◌++◌, ◌∷◌, [], IsTrue, OnOk, nat_lt};
ghost use Rattle.std.specs.List.{list_all};
ghost use Rattle.std.specs.Str.{chars};
ghost use Rattle.query_pages.specs.TokenTexts.Spellings.{literal_text, said_text, said_texts, chars_text, run_text, referred_text, reference_text};
ghost use Rattle.query_pages.specs.TokenWriter.Doubles.{is_brace, is_quote, is_doubled_alone};

use query_pieces::Context;
use std::alloc::AllocError;
use xt_names::{Text, TextBuilder, is_ascii_text};

/// Writes ASCII characters.
#[tactic(auto, using(xt_names::proofs::TextLemmas::ascii_same))]
pub(crate) fn push_ascii(out: &mut TextBuilder, s: &str) -> Result<(), AllocError>
    requires { IsTrue (list_all (λ b. nat_lt b 128) s.now) }
    ensures { OnOk result (out.new ≡ out.old ++ s.now) }
{
    out.push_str(s)
}

/// Writes a literal between double quotes.
pub(crate) fn push_literal(out: &mut TextBuilder, text: &Text) -> Result<(), AllocError>
    ensures { OnOk result (out.new ≡ out.old ++ literal_text text.now) }
{
    out.push('"')?;
    push_said(out, text.as_str())?;
    out.push('"')?;
    Ok(())
}

fn push_said(out: &mut TextBuilder, s: &str) -> Result<(), AllocError>
    ensures { OnOk result (out.new ≡ out.old ++ said_texts (chars s.now)) }
{
    for c in s.chars() {
        push_said_char(out, c)?;
    }
    Ok(())
}

fn push_said_char(out: &mut TextBuilder, c: char) -> Result<(), AllocError>
    ensures { OnOk result (out.new ≡ out.old ++ said_text c) }
{
    match c {
        '"' => push_ascii(out, "\"\""),
        '&' => push_ascii(out, "&amp;"),
        '\r' => push_ascii(out, "&#13;"),
        _ => out.push(c),
    }
}

/// Writes characters that stand so in the text, or that a reference is written for.
pub(crate) fn push_chars(
    out: &mut TextBuilder,
    context: Context,
    text: &Text,
    literal: bool,
) -> Result<(), AllocError>
    ensures { OnOk result (out.new ≡ out.old ++ chars_text context text.now literal) }
{
    if literal {
        push_run(out, context, text)
    } else {
        push_referred(out, text)
    }
}

/// Writes characters as they are; one that must be doubled stands alone.
#[tactic(auto, using(crate::proofs::TokenWriter::Doubles::runs))]
fn push_run(out: &mut TextBuilder, context: Context, text: &Text) -> Result<(), AllocError>
    ensures { OnOk result (out.new ≡ out.old ++ run_text context text.now) }
{
    if is_doubled_alone(context, text) {
        push_twice(out, text)
    } else {
        out.push_text(text)
    }
}

fn push_twice(out: &mut TextBuilder, text: &Text) -> Result<(), AllocError>
    ensures { OnOk result (out.new ≡ out.old ++ (text.now ++ text.now)) }
{
    out.push_text(text)?;
    out.push_text(text)?;
    Ok(())
}

/// Whether the text is one character that is doubled.
fn is_doubled_alone(context: Context, text: &Text) -> bool
    ensures { result ≡ is_doubled_alone context text.now }
{
    is_brace(text) | is_quote(context, text)
}

fn is_brace(text: &Text) -> bool
    ensures { result ≡ is_brace text.now }
{
    is_ascii_text(text.as_str(), "{") | is_ascii_text(text.as_str(), "}")
}

/// Whether the text is the quote of the value of an attribute.
fn is_quote(context: Context, text: &Text) -> bool
    ensures { result ≡ is_quote context text.now }
{
    match context {
        Context::Attribute(_) => is_ascii_text(text.as_str(), "\""),
        _ => false,
    }
}

/// Writes the reference of the first character.
fn push_referred(out: &mut TextBuilder, text: &Text) -> Result<(), AllocError>
    ensures { OnOk result (out.new ≡ out.old ++ referred_text text.now) }
{
    match text.as_str().chars().next() {
        None => Ok(()),
        Some(c) => push_reference(out, c),
    }
}

fn push_reference(out: &mut TextBuilder, c: char) -> Result<(), AllocError>
    ensures { OnOk result (out.new ≡ out.old ++ reference_text c) }
{
    match c {
        '&' => push_ascii(out, "&amp;"),
        '<' => push_ascii(out, "&lt;"),
        '>' => push_ascii(out, "&gt;"),
        '"' => push_ascii(out, "&quot;"),
        '\'' => push_ascii(out, "&apos;"),
        '\t' => push_ascii(out, "&#9;"),
        '\n' => push_ascii(out, "&#10;"),
        ' ' => push_ascii(out, "&#32;"),
        _ => push_ascii(out, "&#13;"),
    }
}
