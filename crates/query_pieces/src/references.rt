// References to characters.
ghost use Rattle.std.specs.Prelude.{◌≡◌, ◌≤◌, ◌<◌, MatchOption, Some, None};
ghost use Rattle.std.specs.Str.{chars};
ghost use Rattle.query_pieces.specs.References.{entity, base_of, digit, value, char_of, numbered};
ghost use Rattle.query_pieces.specs.References.{entity_at};
ghost use Rattle.query_pieces.specs.References.{is_digit_of, number_at, reference_at};
ghost use Rattle.query_pieces.specs.Fronts.{run_of, rest_of};

use crate::classes::{Decimal, Hexadecimal, NameChar, is_char};
use crate::scans::{Scan, first};
use xt_names::is_ascii_text;

/// The greatest number of a character.
const LAST: u64 = 0x10_FFFF;

/// In which base a number is written.
#[derive(Clone, Copy)]
pub(crate) enum Base {
    Decimal,
    Hexadecimal,
}

/// The character that the predefined entity is (XML 1.0, 4.6).
fn entity(name: &str) -> Option<char>
    ensures { result ≡ entity (chars name.now) }
{
    if is_ascii_text(name, "lt") {
        Some('<')
    } else if is_ascii_text(name, "gt") {
        Some('>')
    } else if is_ascii_text(name, "amp") {
        Some('&')
    } else if is_ascii_text(name, "quot") {
        Some('"')
    } else if is_ascii_text(name, "apos") {
        Some('\'')
    } else {
        None
    }
}

impl Base {
    fn size(self) -> u64
        ensures value { result ≡ base_of self }
        ensures small { result ≤ 16 }
    {
        match self {
            Base::Decimal => 10,
            Base::Hexadecimal => 16,
        }
    }
}

/// What a digit counts.
#[tactic(auto, unfolding(crate::specs::References::digit))]
fn digit(c: char) -> u64
    ensures value { result ≡ digit c }
    ensures small { result ≤ 4294967295 }
{
    let code = u64::from(u32::from(c));
    if code <= 57 {
        code.saturating_sub(48)
    } else if code <= 70 {
        code.saturating_sub(55)
    } else {
        code.saturating_sub(87)
    }
}

/// The number of these digits; None where it is past that of the last character.
fn value(base: Base, digits: &str) -> Option<u32>
    ensures { MatchOption result (0x10_FFFF < value base 0 (chars digits.now))
        (λ n. n ≡ value base 0 (chars digits.now)) }
{
    let mut value: u64 = 0;
    for c in digits.chars() {
        if value <= LAST {
            value = value * base.size() + digit(c);
        }
    }
    if value <= LAST {
        Some(value as u32)
    } else {
        None
    }
}

/// The character that has the number.
fn char_of(n: u32) -> Option<char>
    ensures { result ≡ char_of n }
{
    match char::from_u32(n) {
        Some(c) => if is_char(c) { Some(c) } else { None },
        None => None,
    }
}

/// The character that has the number of these digits.
#[tactic(auto, using(crate::proofs::NumberLemmas::numbers))]
fn numbered(base: Base, digits: &str) -> Option<char>
    ensures { result ≡ numbered base (chars digits.now) }
{
    match first(digits) {
        Some(_) => match value(base, digits) {
            Some(n) => char_of(n),
            None => None,
        },
        None => None,
    }
}

impl<'a> Scan<'a> {
    /// Takes the name of a predefined entity and the `;` after it.
    fn entity(&mut self) -> Option<char>
        ensures { MatchOption result (entity_at self.old ≡ None)
            (λ c. entity_at self.old ≡ Some (c, self.new)) }
    {
        let name = self.take_run::<NameChar>();
        let c = entity(name)?;
        if self.eat(';') { Some(c) } else { None }
    }

    fn digits(&mut self, base: Base) -> &'a str
        ensures run { chars result.now ≡ run_of (is_digit_of base) self.old }
        ensures rest { self.new ≡ rest_of (is_digit_of base) self.old }
    {
        match base {
            Base::Decimal => self.take_run::<Decimal>(),
            Base::Hexadecimal => self.take_run::<Hexadecimal>(),
        }
    }

    /// Takes a number and the `;` after it.
    fn number(&mut self, base: Base) -> Option<char>
        ensures { MatchOption result (number_at base self.old ≡ None)
            (λ c. number_at base self.old ≡ Some (c, self.new)) }
    {
        let digits = self.digits(base);
        let c = numbered(base, digits)?;
        if self.eat(';') { Some(c) } else { None }
    }

    /// Takes a reference after its `&`: the character that it is.
    pub(crate) fn reference(&mut self) -> Option<char>
        ensures { MatchOption result (reference_at self.old ≡ None)
            (λ c. reference_at self.old ≡ Some (c, self.new)) }
    {
        if !self.eat('#') {
            return self.entity();
        }
        if self.eat('x') {
            return self.number(Base::Hexadecimal);
        }
        self.number(Base::Decimal)
    }
}
