// What is left of a text, and how it is taken character by character and in runs.
ghost use Rattle.std.specs.Prelude.{◌≡◌, ◌≤◌, length, true, ◌++◌, ◌∷◌, [], slice_get, MatchBool, MatchOption};
ghost use Rattle.std.specs.List.{list_all};
ghost use Rattle.std.specs.Str.{chars};
ghost use Rattle.text_scan.specs.Runs.{Ends, NotNext};

use std::marker::Model;

/// A class of characters.
pub trait Class {
    ghost use Rattle.std.specs.Prelude.{ℕ, Bool};

    /// Which characters are of the class.
    ghost class: { ℕ → Bool };

    /// Whether the character is of the class.
    fn has(c: char) -> bool
        ensures { result ≡ class c };
}

/// What is left of a text; contracts see its characters.
#[derive(Drop)]
pub struct Scan<'a> {
    rest: &'a str,
}

impl<'a> Model for Scan<'a> {
    ghost use Rattle.std.specs.Prelude.{List, ℕ};
    ghost use Rattle.std.specs.Str.{chars};

    ghost Value = { List ℕ };

    ghost view = { λ s. chars s.rest.now };
}

impl<'a> Scan<'a> {
    /// The whole of a text.
    pub fn new(text: &'a str) -> Scan<'a>
        ensures { result ≡ chars text.now }
    {
        Scan { rest: text }
    }

    /// The text that is left.
    pub fn rest(&self) -> &'a str
        ensures { chars result.now ≡ self.now }
    {
        self.rest
    }

    /// The next character, which stays.
    pub fn peek(&self) -> Option<char>
        ensures { result ≡ slice_get self.now 0 }
    {
        self.rest.chars().next()
    }

    /// Takes the character, if it is the next.
    pub fn eat(&mut self, c: char) -> bool
        ensures { MatchBool result (self.old ≡ c ∷ self.new) ((self.new ≡ self.old) × NotNext c self.old) }
    {
        let mut chars = self.rest.chars();
        let _text = chars.as_str();
        match chars.next() {
            Some(next) if next == c => {
                self.rest = chars.as_str();
                true
            }
            _ => false,
        }
    }

    /// Takes the next character.
    pub fn skip(&mut self) -> Option<char>
        ensures { MatchOption result ((self.old ≡ []) × (self.new ≡ [])) (λ c. self.old ≡ c ∷ self.new) }
    {
        let c = self.peek()?;
        let _taken = self.eat(c);
        Some(c)
    }

    /// Takes the characters of a class, as far as they come next.
    pub fn take_run<C: Class>(&mut self) -> &'a str
        ensures run { self.old ≡ chars result.now ++ self.new }
        ensures passes { list_all C.class (chars result.now) ≡ true }
        ensures ends { Ends C.class self.new }
        ensures shorter { length self.new ≤ length self.old }
    {
        let mut chars = self.rest.chars();
        let whole = chars.as_str();
        let mut rest = whole;
        while let Some(c) = chars.next() {
            if !C::has(c) {
                break;
            }
            rest = chars.as_str();
        }
        self.rest = rest;
        &whole[..whole.len() - rest.len()]
    }
}
