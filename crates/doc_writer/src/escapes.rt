ghost use Rattle.std.specs.Prelude.{◌≡◌, ◌++◌, ◌<◌, ◌≤◌, ◌-◌, IfOk, OnOk, length, true};
ghost use Rattle.std.specs.Fmt.{digit_glyph};
ghost use Rattle.std.specs.List.{flat_map};
ghost use Rattle.std.specs.Str.{chars};
ghost use Rattle.doc_writer.specs.Escapes.{reference, escaped_text, escaped_value};
ghost use Rattle.doc_writer.specs.Plain.{BeginsPlain, is_plain_in_text, is_plain_in_value};

use crate::plain::push_ascii;
use std::alloc::AllocError;
use xt_names::{Text, TextBuilder};

/// Writes the characters of a text node.
pub(crate) fn push_text(out: &mut TextBuilder, text: &Text) -> Result<(), AllocError>
    ensures { OnOk result (out.new ≡ out.old ++ escaped_text text.now) }
{
    push_escaped::<InText>(out, text.as_str())
}

/// Writes a text between double quotes.
pub(crate) fn push_value(out: &mut TextBuilder, text: &Text) -> Result<(), AllocError>
    ensures { OnOk result (out.new ≡ out.old ++ escaped_value text.now) }
{
    push_escaped::<InValue>(out, text.as_str())
}

/// How the characters of a text are written.
trait Escape {
    ghost use Rattle.std.specs.Prelude.{ℕ, List, ◌∷◌, [], Bool};

    /// What a character is written as.
    ghost written: { ℕ → List ℕ };

    /// Which characters are written as they are.
    ghost plain: { ℕ → Bool };

    /// Whether the character is written as it is.
    fn is_plain(c: char) -> bool
        ensures test { result ≡ plain c }
        ensures itself { result ≡ true → written c ≡ c ∷ [] };

    /// Writes a character.
    fn push_char(out: &mut TextBuilder, c: char) -> Result<(), AllocError>
        ensures { OnOk result (out.new ≡ out.old ++ written c) };
}

/// In a text node.
struct InText;

/// Between double quotes.
struct InValue;

impl Escape for InText {
    ghost use Rattle.doc_writer.specs.Escapes.{text_char};

    ghost written = { text_char };

    ghost plain = { is_plain_in_text };

    #[tactic(auto, using(crate::proofs::EscapeLemmas::plain_text_char))]
    fn is_plain(c: char) -> bool {
        is_plain_in_text(c)
    }

    #[tactic(auto, using(crate::proofs::EscapeLemmas::references), unfolding(crate::specs::Escapes::text_char))]
    fn push_char(out: &mut TextBuilder, c: char) -> Result<(), AllocError> {
        match c {
            '&' => push_ascii(out, "&amp;"),
            '<' => push_ascii(out, "&lt;"),
            '>' => push_ascii(out, "&gt;"),
            '\r' => push_ascii(out, "&#xD;"),
            '\u{7F}'..='\u{9F}' => push_control(out, c),
            '\u{2028}' => push_ascii(out, "&#x2028;"),
            _ => out.push(c),
        }
    }
}

impl Escape for InValue {
    ghost use Rattle.doc_writer.specs.Escapes.{value_char};

    ghost written = { value_char };

    ghost plain = { is_plain_in_value };

    #[tactic(auto, using(crate::proofs::EscapeLemmas::plain_value_char))]
    fn is_plain(c: char) -> bool {
        is_plain_in_value(c)
    }

    #[tactic(auto, using(crate::proofs::EscapeLemmas::references), unfolding(crate::specs::Escapes::value_char))]
    fn push_char(out: &mut TextBuilder, c: char) -> Result<(), AllocError> {
        match c {
            '&' => push_ascii(out, "&amp;"),
            '<' => push_ascii(out, "&lt;"),
            '"' => push_ascii(out, "&quot;"),
            '\t' => push_ascii(out, "&#x9;"),
            '\n' => push_ascii(out, "&#xA;"),
            '\r' => push_ascii(out, "&#xD;"),
            '\u{7F}'..='\u{9F}' => push_control(out, c),
            '\u{2028}' => push_ascii(out, "&#x2028;"),
            _ => out.push(c),
        }
    }
}

#[tactic(auto, unfolding(crate::specs::Plain::is_plain_in_text))]
fn is_plain_in_text(c: char) -> bool
    ensures { result ≡ is_plain_in_text c }
{
    !matches!(c, '&' | '<' | '>' | '\r' | '\u{7F}'..='\u{9F}' | '\u{2028}')
}

#[tactic(auto, unfolding(crate::specs::Plain::is_plain_in_value))]
fn is_plain_in_value(c: char) -> bool
    ensures { result ≡ is_plain_in_value c }
{
    !matches!(
        c,
        '&' | '<' | '"' | '\t' | '\n' | '\r' | '\u{7F}'..='\u{9F}' | '\u{2028}'
    )
}

/// Writes a text piece by piece.
fn push_escaped<E: Escape>(out: &mut TextBuilder, s: &str) -> Result<(), AllocError>
    ensures { OnOk result (out.new ≡ out.old ++ flat_map E.written (chars s.now)) }
{
    let mut left = s;
    while !left.is_empty() {
        left = push_piece::<E>(out, left)?;
    }
    Ok(())
}

/// Writes the characters at the front that are plain, in one piece, and the one after them. Gives what is left.
fn push_piece<'a, E: Escape>(out: &mut TextBuilder, s: &'a str) -> Result<&'a str, AllocError>
    ensures written { IfOk result (λ left. out.new ++ flat_map E.written (chars left.now) ≡ out.old ++ flat_map E.written (chars s.now)) }
    ensures shorter { IfOk result (λ left. length left.now ≤ length s.now - 1) }
{
    let rest = behind_plain::<E>(s);
    out.push_str(&s[..s.len() - rest.len()])?;
    let left = push_first::<E>(out, rest)?;
    Ok(left)
}

/// Writes the first character, if there is one. Gives what is left.
fn push_first<'a, E: Escape>(out: &mut TextBuilder, s: &'a str) -> Result<&'a str, AllocError>
    ensures written { IfOk result (λ left. out.new ++ flat_map E.written (chars left.now) ≡ out.old ++ flat_map E.written (chars s.now)) }
    ensures shorter { IfOk result (λ left. length left.now ≤ length s.now - 1) }
{
    let mut chars = s.chars();
    let _text = chars.as_str();
    let Some(c) = chars.next() else {
        return Ok(s);
    };
    E::push_char(out, c)?;
    Ok(chars.as_str())
}

/// What is after the characters at the front that are plain.
fn behind_plain<'a, E: Escape>(s: &'a str) -> &'a str
    ensures { BeginsPlain E.written s.now result.now }
{
    let mut chars = s.chars();
    let mut rest = chars.as_str();
    while let Some(c) = chars.next() {
        if !E::is_plain(c) {
            break;
        }
        rest = chars.as_str();
    }
    rest
}

/// Writes a character whose number has two hexadecimal digits as its reference.
fn push_control(out: &mut TextBuilder, c: char) -> Result<(), AllocError>
    requires low { 16 ≤ c }
    requires high { c < 256 }
    ensures { OnOk result (out.new ≡ out.old ++ reference c) }
{
    let code = c as u32;
    push_ascii(out, "&#x")?;
    out.push(hex_digit(code / 16))?;
    out.push(hex_digit(code % 16))?;
    push_ascii(out, ";")?;
    Ok(())
}

fn hex_digit(digit: u32) -> char
    requires { digit < 16 }
    ensures { result ≡ digit_glyph true digit }
{
    let digit = digit as u8;
    char::from(if digit < 10 {
        b'0' + digit
    } else {
        b'A' + (digit - 10)
    })
}
