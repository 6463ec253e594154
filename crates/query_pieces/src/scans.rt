// What is left of a text, and how it is taken character by character and in runs.
ghost use Rattle.std.specs.Prelude.{◌≡◌, ◌∷◌, List, ℕ, slice_get, MatchBool, MatchOption};
ghost use Rattle.std.specs.Prelude.{Some, None, []};
ghost use Rattle.std.specs.Str.{chars};
ghost use Rattle.xt_names.specs.Characters.{is_space, starts_name};
ghost use Rattle.query_pieces.specs.Fronts.{run_of, rest_of, begins, eaten, spaces};

use crate::classes::{Space, starts_name};
use std::marker::Model;
use text_scan::Class;

/// What is left of a text; contracts see its characters.
#[derive(Drop)]
pub(crate) struct Scan<'a> {
    text: text_scan::Scan<'a>,
}

impl<'a> Model for Scan<'a> {
    ghost use Rattle.std.specs.Prelude.{List, ℕ};

    ghost Value = { List ℕ };

    ghost view = { λ s. s.text };
}

impl<'a> Scan<'a> {
    pub(crate) fn new(text: &'a str) -> Scan<'a>
        ensures { result ≡ chars text.now }
    {
        Scan {
            text: text_scan::Scan::new(text),
        }
    }

    /// The text that is left.
    pub(crate) fn rest(&self) -> &'a str
        ensures { chars result.now ≡ self.now }
    {
        self.text.rest()
    }

    /// The next character, which stays.
    pub(crate) fn peek(&self) -> Option<char>
        ensures { result ≡ slice_get self.now 0 }
    {
        self.text.peek()
    }

    /// Takes the next character.
    pub(crate) fn skip(&mut self) -> Option<char>
        ensures { MatchOption result ((self.old ≡ []) × (self.new ≡ []))
            (λ c. self.old ≡ c ∷ self.new) }
    {
        self.text.skip()
    }

    /// Takes the character, if it is the next.
    pub(crate) fn eat(&mut self, c: char) -> bool
        ensures { MatchBool result (eaten c self.old ≡ Some self.new)
            ((eaten c self.old ≡ None) × (self.new ≡ self.old)) }
    {
        self.text.eat(c)
    }

    /// Takes the characters of a class, as far as they come next.
    pub(crate) fn take_run<C: Class>(&mut self) -> &'a str
        ensures run { chars result.now ≡ run_of C.class self.old }
        ensures rest { self.new ≡ rest_of C.class self.old }
    {
        self.text.take_run::<C>()
    }

    /// Takes white space, and says whether there was any.
    pub(crate) fn spaces(&mut self) -> bool
        ensures any { result ≡ begins is_space self.old }
        ensures rest { self.new ≡ spaces self.old }
    {
        let any = match self.peek() {
            Some(c) => Space::has(c),
            None => false,
        };
        let _run = self.take_run::<Space>();
        any
    }

    /// Whether a name comes next.
    pub(crate) fn begins_name(&self) -> bool
        ensures { result ≡ begins starts_name self.now }
    {
        match self.peek() {
            Some(c) => starts_name(c),
            None => false,
        }
    }
}

/// The first character.
pub(crate) fn first(text: &str) -> Option<char>
    ensures { result ≡ slice_get (chars text.now) 0 }
{
    text.chars().next()
}
