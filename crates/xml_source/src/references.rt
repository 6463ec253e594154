// References: to a predefined entity by its name, or to a character by its number.
ghost use Rattle.std.specs.Prelude.{◌≡◌, ◌≤◌, ◌<◌, ◌+◌, ◌*◌, length, Some, MatchResult, MatchOption, OnSome, IfSome};
ghost use Rattle.std.specs.Str.{chars};
ghost use Rattle.doc_grammar.specs.Characters.{digit, base_of};
ghost use Rattle.xt_names.specs.Characters.{starts_name, NotNext};
ghost use Rattle.doc_grammar.specs.Lexing.{ampersand, letter_a, spelling, hash, number};
ghost use Rattle.doc_grammar.specs.Machine.{other};
ghost use Rattle.xml_source.specs.Reading.{stop_of};
ghost use Rattle.xml_source.specs.References.{ref_reads, finds, stops, stop_by, is_in_entity, base_view, before_digits, next_digit, BeginsDigits};
ghost use Rattle.xml_source.specs.Sources.{NextIs};
ghost use Rattle.doc_grammar.specs.Signs as sign;

use crate::classes::{is_char, is_name_char, starts_name};
use crate::sources::Source;
use crate::steps::Stop;

/// The greatest number of a character.
const LAST: u32 = 0x10_FFFF;

/// In which base a number is written.
#[derive(Clone, Copy)]
pub(crate) enum Base {
    Decimal,
    Hexadecimal,
}

/// The value of a digit.
#[tactic(auto, unfolding(doc_grammar::specs::Characters::digit))]
fn digit(base: Base, c: char) -> Option<u32>
    ensures value { result ≡ digit (base_view base) c }
    ensures small { IfSome result (λ d. d ≤ 15) }
{
    match (base, c) {
        (_, '0'..='9') => Some(c as u32 - 48),
        (Base::Hexadecimal, 'a'..='f') => Some(c as u32 - 87),
        (Base::Hexadecimal, 'A'..='F') => Some(c as u32 - 55),
        _ => None,
    }
}

/// The number with a digit more, if it is not past the last character.
fn with_digit(base: Base, n: u32, d: u32) -> Option<u32>
    requires number { n ≤ 0x10_FFFF }
    requires digit { d ≤ 15 }
    ensures { MatchOption result (0x10_FFFF < n * base_of (base_view base) + d) (λ m. (m ≡ n * base_of (base_view base) + d) × m ≤ 0x10_FFFF) }
{
    let base = match base {
        Base::Decimal => 10,
        Base::Hexadecimal => 16,
    };
    let more = n * base + d;
    if more <= LAST { Some(more) } else { None }
}

impl<'a> Source<'a> {
    /// Takes a reference after its `&`: the character that it stands for.
    pub fn reference(&mut self) -> Result<char, Stop>
        ensures reads { MatchResult result (λ c. ref_reads self.old ampersand ≡ finds c self.new) (λ why. ref_reads self.old ampersand ≡ stops (stop_of why) self.new) }
        ensures shorter { length self.new ≤ length self.old }
    {
        if self.eat('#') {
            return self.by_number();
        }
        self.entity()
    }

    /// Takes the name of a predefined entity, and the `;` after it.
    fn entity(&mut self) -> Result<char, Stop>
        requires { NotNext sign.number_sign self.old }
        ensures reads { MatchResult result (λ c. ref_reads self.old ampersand ≡ finds c self.new) (λ why. ref_reads self.old ampersand ≡ stops (stop_of why) self.new) }
        ensures shorter { length self.new ≤ length self.old }
    {
        if self.eat('a') {
            return self.entity_of_a();
        }
        if self.eat('l') {
            return self.spelled("t;", '<');
        }
        if self.eat('g') {
            return self.spelled("t;", '>');
        }
        if self.eat('q') {
            return self.spelled("uot;", '"');
        }
        Err(self.stop_at_name())
    }

    /// Takes the rest of a name after its `a`.
    fn entity_of_a(&mut self) -> Result<char, Stop>
        ensures reads { MatchResult result (λ c. ref_reads self.old letter_a ≡ finds c self.new) (λ why. ref_reads self.old letter_a ≡ stops (stop_of why) self.new) }
        ensures shorter { length self.new ≤ length self.old }
    {
        if self.eat('m') {
            return self.spelled("p;", '&');
        }
        if self.eat('p') {
            return self.spelled("os;", '\'');
        }
        Err(self.stop_in_entity())
    }

    /// Takes the rest of a name and its `;`.
    fn spelled(&mut self, rest: &str, c: char) -> Result<char, Stop>
        requires { 0 < length (chars rest.now) }
        ensures reads { MatchResult result (λ v. ref_reads self.old (spelling (chars rest.now) c) ≡ finds v self.new) (λ why. ref_reads self.old (spelling (chars rest.now) c) ≡ stops (stop_of why) self.new) }
        ensures shorter { length self.new ≤ length self.old }
    {
        if self.eat_text(rest) {
            Ok(c)
        } else {
            Err(self.stop_in_entity())
        }
    }

    /// Why no name of an entity begins here.
    fn stop_at_name(&self) -> Stop
        ensures { stop_of result ≡ stop_by starts_name self.now }
    {
        match self.peek() {
            Some(c) if starts_name(c) => Stop::Entity,
            _ => Stop::Other,
        }
    }

    /// Why the name of an entity does not go on so.
    #[tactic(auto, unfolding(crate::specs::References::is_in_entity))]
    fn stop_in_entity(&self) -> Stop
        ensures { stop_of result ≡ stop_by is_in_entity self.now }
    {
        match self.peek() {
            Some(c) if is_name_char(c) || c == ';' => Stop::Entity,
            _ => Stop::Other,
        }
    }

    /// Takes a number after its `&#`.
    fn by_number(&mut self) -> Result<char, Stop>
        ensures reads { MatchResult result (λ c. ref_reads self.old hash ≡ finds c self.new) (λ why. ref_reads self.old hash ≡ stops (stop_of why) self.new) }
        ensures shorter { length self.new ≤ length self.old }
    {
        if self.eat('x') {
            return self.digits(Base::Hexadecimal);
        }
        self.digits(Base::Decimal)
    }

    /// Takes digits, of which there is one at least, and the `;` after them.
    fn digits(&mut self, base: Base) -> Result<char, Stop>
        requires { BeginsDigits (base_view base) self.old }
        ensures reads { MatchResult result (λ c. ref_reads self.old (before_digits (base_view base)) ≡ finds c self.new) (λ why. ref_reads self.old (before_digits (base_view base)) ≡ stops (stop_of why) self.new) }
        ensures shorter { length self.new ≤ length self.old }
    {
        match self.first_digit(base) {
            Some(n) => self.more_digits(base, n),
            None => Err(Stop::Other),
        }
    }

    /// Takes more digits after this number, and the `;` after them.
    fn more_digits(&mut self, base: Base, mut n: u32) -> Result<char, Stop>
        requires { n ≤ 0x10_FFFF }
        ensures reads { MatchResult result (λ c. ref_reads self.old (number (base_view base) n) ≡ finds c self.new) (λ why. ref_reads self.old (number (base_view base) n) ≡ stops (stop_of why) self.new) }
        ensures shorter { length self.new ≤ length self.old }
    {
        'digits: loop {
            if self.is_next(';') {
                return self.numbered(base, n);
            }
            match self.next_digit(base, n) {
                Some(more) => n = more,
                None => return Err(Stop::Other),
            }
        }
    }

    /// The value of the digit that comes next, which stays.
    fn peek_digit(&self, base: Base) -> Option<u32>
        ensures value { result ≡ next_digit (base_view base) self.now }
        ensures small { IfSome result (λ d. d ≤ 15) }
    {
        match self.peek() {
            Some(c) => digit(base, c),
            None => None,
        }
    }

    /// Takes the first digit of a number.
    fn first_digit(&mut self, base: Base) -> Option<u32>
        requires { BeginsDigits (base_view base) self.old }
        ensures reads { MatchOption result (ref_reads self.old (before_digits (base_view base)) ≡ stops other self.new) (λ d. ref_reads self.old (before_digits (base_view base)) ≡ ref_reads self.new (number (base_view base) d)) }
        ensures small { IfSome result (λ d. d ≤ 0x10_FFFF) }
        ensures shorter { length self.new ≤ length self.old }
    {
        match self.peek_digit(base) {
            Some(d) => {
                let _digit = self.skip();
                Some(d)
            }
            None => None,
        }
    }

    /// Takes a digit more after this number, if it makes none past the last character.
    fn next_digit(&mut self, base: Base, n: u32) -> Option<u32>
        requires number { n ≤ 0x10_FFFF }
        requires no_end { NotNext sign.semicolon self.old }
        ensures reads { MatchOption result (ref_reads self.old (number (base_view base) n) ≡ stops other self.new) (λ m. ref_reads self.old (number (base_view base) n) ≡ ref_reads self.new (number (base_view base) m)) }
        ensures small { IfSome result (λ m. m ≤ 0x10_FFFF) }
        ensures shorter { length self.new ≤ length self.old }
        ensures falls { OnSome result (length self.new < length self.old) }
    {
        match self.peek_digit(base) {
            Some(d) => self.add_digit(base, n, d),
            None => None,
        }
    }

    fn add_digit(&mut self, base: Base, n: u32, d: u32) -> Option<u32>
        requires number { n ≤ 0x10_FFFF }
        requires digit { d ≤ 15 }
        requires next { Some d ≡ next_digit (base_view base) self.old }
        requires no_end { NotNext sign.semicolon self.old }
        ensures reads { MatchOption result (ref_reads self.old (number (base_view base) n) ≡ stops other self.new) (λ m. ref_reads self.old (number (base_view base) n) ≡ ref_reads self.new (number (base_view base) m)) }
        ensures small { IfSome result (λ m. m ≤ 0x10_FFFF) }
        ensures shorter { length self.new ≤ length self.old }
        ensures falls { OnSome result (length self.new < length self.old) }
    {
        match with_digit(base, n, d) {
            Some(more) => {
                let _digit = self.skip();
                Some(more)
            }
            None => None,
        }
    }

    /// Takes the `;` after a number, if it is that of a character.
    fn numbered(&mut self, base: Base, n: u32) -> Result<char, Stop>
        requires { NextIs 59 self.old }
        ensures reads { MatchResult result (λ c. ref_reads self.old (number (base_view base) n) ≡ finds c self.new) (λ why. ref_reads self.old (number (base_view base) n) ≡ stops (stop_of why) self.new) }
        ensures shorter { length self.new ≤ length self.old }
    {
        match char::from_u32(n) {
            Some(c) => self.ended(base, c),
            None => Err(Stop::Other),
        }
    }

    fn ended(&mut self, base: Base, c: char) -> Result<char, Stop>
        requires { NextIs 59 self.old }
        ensures reads { MatchResult result (λ v. ref_reads self.old (number (base_view base) c) ≡ finds v self.new) (λ why. ref_reads self.old (number (base_view base) c) ≡ stops (stop_of why) self.new) }
        ensures shorter { length self.new ≤ length self.old }
    {
        if !is_char(c) {
            return Err(Stop::Other);
        }
        let _end = self.skip();
        Ok(c)
    }
}
