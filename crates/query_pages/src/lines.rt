// Where lines end.
use crate::gaps::Gap;
use crate::placed::Placed;
use expr_terms::{Token, key_text};
use std::alloc::{AllocError, Global};
use xt_names::Text;

/// How many columns a line has at most, where it may end.
const COLUMNS: usize = 100;

fn text_width(text: &Text) -> usize {
    text.as_str().len()
}

fn number_width(number: i64) -> usize {
    if number < 10 {
        1
    } else if number < 1000 {
        3
    } else if number < 1000000 {
        6
    } else {
        19
    }
}

/// About how many columns the token takes.
fn width(token: &Token) -> usize {
    match token {
        Token::Key(key) => key_text(*key).len(),
        Token::Name(n) => text_width(n),
        Token::Qname(p, n) => text_width(p)
            .saturating_add(text_width(n))
            .saturating_add(1),
        Token::AnyLocal(p) => text_width(p).saturating_add(2),
        Token::AnyPrefix(n) => text_width(n).saturating_add(2),
        Token::Digits(n) => number_width(*n),
        Token::Quoted(text) => text_width(text).saturating_add(2),
        Token::StartTagOpen(p, n) => text_width(p)
            .saturating_add(text_width(n))
            .saturating_add(2),
        Token::ChildTagOpen(p, n) => text_width(p)
            .saturating_add(text_width(n))
            .saturating_add(2),
        Token::Attribute(p, n) => text_width(p)
            .saturating_add(text_width(n))
            .saturating_add(4),
        Token::EndTag(p, n) => text_width(p)
            .saturating_add(text_width(n))
            .saturating_add(4),
        Token::Chars(text, _) => text_width(text),
        Token::EmptyEnd => 2,
        Token::AttributeEnd => 1,
        Token::TagEnd => 1,
        Token::EnclosedOpen => 1,
    }
}

/// What comes before a token of this width, where so many columns are full.
fn settled(gap: Gap, column: usize, width: usize) -> Gap {
    match gap {
        Gap::Space => Gap::Space,
        Gap::Line(indent) => Gap::Line(indent),
        Gap::Soft(indent) => {
            if column.saturating_add(width) < COLUMNS {
                Gap::Space
            } else {
                Gap::Line(indent)
            }
        }
    }
}

/// How many columns are full after the token.
fn behind(gap: Gap, column: usize, width: usize) -> usize {
    match gap {
        Gap::Line(indent) => usize::from(indent).saturating_add(width),
        Gap::Space => column.saturating_add(width).saturating_add(1),
        Gap::Soft(_) => column.saturating_add(width).saturating_add(1),
    }
}

/// What comes before each token, the first token first.
pub(crate) fn gaps_of(alloc: Global, items: &[Placed]) -> Result<Vec<Gap>, AllocError> {
    let mut gaps = Vec::with_capacity(alloc, items.len())?;
    let mut column = 0;
    for item in items.iter().rev() {
        let width = width(&item.token);
        let gap = settled(item.gap, column, width);
        column = behind(gap, column, width);
        gaps.push(gap)?;
    }
    Ok(gaps)
}
