// The pieces of direct elements.
ghost use Rattle.std.specs.Prelude.{◌≡◌, ◌∷◌, [], List, ℕ, IfOk, Some, None, MatchOption, true};
ghost use Rattle.std.specs.Str.{chars};
ghost use Rattle.query_pieces.specs.Elements.{Finds, Piece, is_value, mark_of, literal, line_end};
ghost use Rattle.query_pieces.specs.Elements.{of_reference, opened, closed, marked, quoted};
ghost use Rattle.query_pieces.specs.Elements.{quote_at};
ghost use Rattle.query_pieces.specs.Elements.{shut_from, inner_from, tag_from, content_mark};
ghost use Rattle.query_pieces.specs.Elements.{content_piece, value_mark, value_piece};
ghost use Rattle.query_pieces.specs.Elements.{attribute_from, empty_end, tag_piece, piece_at};
ghost use Rattle.query_pieces.specs.Fronts.{run_of, rest_of, eaten, name_at};
ghost use Rattle.query_pieces.specs.References.{reference_at};

use crate::classes::{Content, InDouble, InSingle, is_space};
use crate::contexts::{Change, Context, Quote};
use crate::scans::{Scan, first};
use expr_terms::Token;
use std::alloc::{AllocError, Global};
use xt_names::{Text, TextBuilder};

/// A piece, if one may be read, and what it does to what is open.
pub(crate) type Read = Result<Option<(Token, Change)>, AllocError>;

fn text_of(alloc: Global, c: char) -> Result<Text, AllocError>
    ensures { IfOk result (λ text. text ≡ c ∷ []) }
{
    let mut made = TextBuilder::new(alloc);
    made.push(c)?;
    made.finish()
}

/// Characters that stand so in the text.
fn literal(alloc: Global, text: &str) -> Read
    ensures { IfOk result (λ found. (rest : List ℕ)
        → Finds found (Some (literal (chars text.now) rest)) rest) }
{
    let text = Text::make(alloc, text)?;
    Ok(Some((Token::Chars(text, true), Change::Stays)))
}

/// A character that is written in another way.
fn character(alloc: Global, c: char) -> Read
    ensures { IfOk result (λ found. (rest : List ℕ)
        → Finds found (Some (literal (c ∷ []) rest)) rest) }
{
    let text = text_of(alloc, c)?;
    Ok(Some((Token::Chars(text, true), Change::Stays)))
}

/// A reference, after its `&`.
fn reference(alloc: Global, scan: &mut Scan<'_>) -> Read
    ensures { IfOk result (λ found. Finds found (of_reference (reference_at scan.old)) scan.new) }
{
    match scan.reference() {
        Some(c) => {
            let text = text_of(alloc, c)?;
            Ok(Some((Token::Chars(text, false), Change::Stays)))
        }
        None => Ok(None),
    }
}

/// `{{`, or the front of an enclosed expression, after the first brace.
fn opened(alloc: Global, scan: &mut Scan<'_>) -> Read
    ensures { IfOk result (λ found.
        Finds found (Some (opened (eaten 123 scan.old) scan.old)) scan.new) }
{
    if scan.eat('{') {
        character(alloc, '{')
    } else {
        Ok(Some((Token::EnclosedOpen, Change::Enters(Context::Enclosed))))
    }
}

/// `}}`, after the first brace.
fn closed(alloc: Global, scan: &mut Scan<'_>) -> Read
    ensures { IfOk result (λ found. Finds found (closed (eaten 125 scan.old)) scan.new) }
{
    if scan.eat('}') {
        character(alloc, '}')
    } else {
        Ok(None)
    }
}

/// What comes after this character in content and in a value alike.
fn marked(alloc: Global, scan: &mut Scan<'_>, c: char) -> Read
    ensures { IfOk result (λ found. Finds found (marked c scan.old) scan.new) }
{
    if c == '&' {
        reference(alloc, scan)
    } else if c == '{' {
        opened(alloc, scan)
    } else if c == '}' {
        closed(alloc, scan)
    } else {
        Ok(None)
    }
}

impl<'a> Scan<'a> {
    /// Takes the line feed that belongs to the character, which was taken.
    pub(crate) fn line_end(&mut self, c: char)
        ensures { self.new ≡ line_end c self.old }
    {
        if c == '\r' {
            let _fed = self.eat('\n');
        }
    }

    /// Takes an opening quote.
    fn quote(&mut self) -> Option<Quote>
        ensures { MatchOption result (quote_at self.old ≡ None)
            (λ quote. quote_at self.old ≡ Some (quote, self.new)) }
    {
        if self.eat('"') {
            return Some(Quote::Double);
        }
        if self.eat('\'') {
            return Some(Quote::Single);
        }
        None
    }

    /// Takes what stands for itself in a value between such quotes.
    fn take_value(&mut self, quote: Quote) -> &'a str
        ensures run { chars result.now ≡ run_of (is_value quote) self.old }
        ensures rest { self.new ≡ rest_of (is_value quote) self.old }
    {
        match quote {
            Quote::Single => self.take_run::<InSingle>(),
            Quote::Double => self.take_run::<InDouble>(),
        }
    }
}

/// An end tag, after its `</`.
fn shut(alloc: Global, scan: &mut Scan<'_>) -> Read
    ensures { IfOk result (λ found. Finds found (shut_from (name_at scan.old)) scan.new) }
{
    match scan.name() {
        Some((prefix, local)) => {
            let _spaced = scan.spaces();
            if !scan.eat('>') {
                return Ok(None);
            }
            let prefix = Text::make(alloc, prefix)?;
            let local = Text::make(alloc, local)?;
            Ok(Some((Token::EndTag(prefix, local), Change::Leaves)))
        }
        None => Ok(None),
    }
}

/// The front of an element within another one, after its `<`.
fn inner(alloc: Global, scan: &mut Scan<'_>) -> Read
    ensures { IfOk result (λ found. Finds found (inner_from (name_at scan.old)) scan.new) }
{
    match scan.name() {
        Some((prefix, local)) => {
            let prefix = Text::make(alloc, prefix)?;
            let local = Text::make(alloc, local)?;
            Ok(Some((
                Token::ChildTagOpen(prefix, local),
                Change::Enters(Context::Tag),
            )))
        }
        None => Ok(None),
    }
}

/// A tag in content, after its `<`.
fn tag(alloc: Global, scan: &mut Scan<'_>) -> Read
    ensures { IfOk result (λ found.
        Finds found (tag_from (eaten 47 scan.old) scan.old) scan.new) }
{
    if scan.eat('/') {
        shut(alloc, scan)
    } else {
        inner(alloc, scan)
    }
}

/// What is in content where no character stands for itself.
fn content_mark(alloc: Global, scan: &mut Scan<'_>) -> Read
    ensures { IfOk result (λ found. Finds found (content_mark scan.old) scan.new) }
{
    match scan.skip() {
        Some(c) => {
            if c == '<' {
                tag(alloc, scan)
            } else if c == '\r' {
                scan.line_end('\r');
                character(alloc, '\n')
            } else {
                marked(alloc, scan, c)
            }
        }
        None => Ok(None),
    }
}

/// A piece of the content of an element.
fn content_piece(alloc: Global, scan: &mut Scan<'_>) -> Read
    ensures { IfOk result (λ found. Finds found (content_piece scan.old) scan.new) }
{
    let run = scan.take_run::<Content>();
    match first(run) {
        Some(_) => literal(alloc, run),
        None => content_mark(alloc, scan),
    }
}

/// The quote doubled, or the end of a value, after the first quote.
fn quoted(alloc: Global, scan: &mut Scan<'_>, quote: char) -> Read
    ensures { IfOk result (λ found.
        Finds found (Some (quoted quote (eaten quote scan.old) scan.old)) scan.new) }
{
    if scan.eat(quote) {
        character(alloc, quote)
    } else {
        Ok(Some((Token::AttributeEnd, Change::Leaves)))
    }
}

/// What is in a value where no character stands for itself.
fn value_mark(alloc: Global, scan: &mut Scan<'_>, quote: char) -> Read
    ensures { IfOk result (λ found. Finds found (value_mark quote scan.old) scan.new) }
{
    match scan.skip() {
        Some(c) => {
            if c == quote {
                quoted(alloc, scan, quote)
            } else if is_space(c) {
                scan.line_end(c);
                character(alloc, ' ')
            } else {
                marked(alloc, scan, c)
            }
        }
        None => Ok(None),
    }
}

/// A piece of the value of an attribute.
fn value_piece(alloc: Global, scan: &mut Scan<'_>, quote: Quote) -> Read
    ensures { IfOk result (λ found. Finds found (value_piece quote scan.old) scan.new) }
{
    let run = scan.take_value(quote);
    match first(run) {
        Some(_) => literal(alloc, run),
        None => value_mark(alloc, scan, quote.mark()),
    }
}

/// The front of an attribute, after white space.
fn attribute(alloc: Global, scan: &mut Scan<'_>) -> Read
    ensures { IfOk result (λ found. Finds found (attribute_from (name_at scan.old)) scan.new) }
{
    match scan.name() {
        Some((prefix, local)) => {
            let _before = scan.spaces();
            if !scan.eat('=') {
                return Ok(None);
            }
            let _behind = scan.spaces();
            match scan.quote() {
                Some(quote) => {
                    let prefix = Text::make(alloc, prefix)?;
                    let local = Text::make(alloc, local)?;
                    let change = Change::Enters(Context::Attribute(quote));
                    Ok(Some((Token::Attribute(prefix, local), change)))
                }
                None => Ok(None),
            }
        }
        None => Ok(None),
    }
}

/// The end of the start tag of an empty element, after its `/`.
fn empty_end(scan: &mut Scan<'_>) -> Option<(Token, Change)>
    ensures { Finds result (empty_end (eaten 62 scan.old)) scan.new }
{
    if scan.eat('>') {
        Some((Token::EmptyEnd, Change::Leaves))
    } else {
        None
    }
}

/// A piece of a start tag, after its name.
fn tag_piece(alloc: Global, scan: &mut Scan<'_>) -> Read
    ensures { IfOk result (λ found. Finds found (tag_piece scan.old) scan.new) }
{
    let spaced = scan.spaces();
    if scan.eat('>') {
        let change = Change::Becomes(Context::Content);
        return Ok(Some((Token::TagEnd, change)));
    }
    if scan.eat('/') {
        return Ok(empty_end(scan));
    }
    if !spaced {
        return Ok(None);
    }
    attribute(alloc, scan)
}

/// The piece that is at the front of the text, in this context.
pub(crate) fn piece_at(alloc: Global, scan: &mut Scan<'_>, context: Context) -> Read
    ensures { IfOk result (λ found. Finds found (piece_at context scan.old) scan.new) }
{
    match context {
        Context::Enclosed => Ok(None),
        Context::Tag => tag_piece(alloc, scan),
        Context::Attribute(quote) => value_piece(alloc, scan, quote),
        Context::Content => content_piece(alloc, scan),
    }
}
