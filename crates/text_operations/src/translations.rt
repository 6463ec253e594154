// Characters replaced by others.
ghost use Rattle.std.specs.Prelude.{◌≡◌, ◌++◌, ℕ, OnOk, IfOk, nat_eq, slice_get};
ghost use Rattle.std.specs.HashMap.{get};
ghost use Rattle.std.specs.Str.{chars};
ghost use Rattle.text_operations.specs.Translations.{partner, replaced, translated};

use std::alloc::{AllocError, Global};
use std::collections::HashMap;
use xt_names::{Text, TextBuilder};

type Partners = HashMap<char, Option<char>>;

/// The text with each character of `from` replaced by its partner in `to`, or dropped where there is none; of a character
/// that is there twice the first place counts (Functions and Operators, 7.4.9).
pub fn translated(alloc: Global, text: &Text, from: &str, to: &str) -> Result<Text, AllocError>
    ensures { IfOk result (λ made. made ≡ translated (chars from.now) (chars to.now) text.now) }
{
    let from_chars = chars_of(alloc, from)?;
    let to_chars = chars_of(alloc, to)?;
    let partners = partners_of(alloc, from_chars.as_slice(), to_chars.as_slice())?;
    let mut made = TextBuilder::new(alloc);
    for c in text.as_str().chars() {
        push_replaced(&mut made, partner_in(&partners, c), c)?;
    }
    made.finish()
}

fn chars_of(alloc: Global, text: &str) -> Result<Vec<char>, AllocError>
    ensures { IfOk result (λ all. all.items ≡ chars text.now) }
{
    text.chars().collect(alloc)
}

fn partners_of(alloc: Global, from: &[char], to: &[char]) -> Result<Partners, AllocError>
    ensures { IfOk result (λ map. (c : ℕ) → get nat_eq map c ≡ partner from.now to.now c) }
{
    let mut partners = HashMap::new(alloc);
    for (i, c) in from.iter().enumerate() {
        if !partners.contains_key(c) {
            partners.insert(*c, char_at(to, i))?;
        }
    }
    Ok(partners)
}

fn char_at(all: &[char], place: usize) -> Option<char>
    ensures { result ≡ slice_get all.now place }
{
    all.get(place).copied()
}

fn partner_in(partners: &Partners, c: char) -> Option<Option<char>>
    ensures { result ≡ get nat_eq partners.now c }
{
    partners.get(&c).copied()
}

fn push_replaced(
    made: &mut TextBuilder,
    found: Option<Option<char>>,
    c: char,
) -> Result<(), AllocError>
    ensures { OnOk result (made.new ≡ made.old ++ replaced found c) }
{
    match found {
        Some(Some(other)) => made.push(other),
        Some(None) => Ok(()),
        None => made.push(c),
    }
}
