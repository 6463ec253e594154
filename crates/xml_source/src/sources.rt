// What is left of a text, and how it is taken character by character and in runs.
ghost use Rattle.std.specs.Prelude.{◌≡◌, ◌≤◌, length, true, ◌++◌, ◌∷◌, [], List, ℕ, slice_get, MatchBool, MatchOption};
ghost use Rattle.std.specs.List.{list_all};
ghost use Rattle.std.specs.Str.{chars};
ghost use Rattle.xt_names.specs.Characters.{Ends, is_space, NotNext};
ghost use Rattle.doc_grammar.specs.Lexemes.{Spaces};
ghost use Rattle.xml_source.specs.Sources.{NextIs, DiffersAt};

use crate::classes::Space;
use crate::lines::count;
use std::marker::Model;
use text_scan::{Class, Scan};

/// What is left of a text; contracts see its characters.
#[derive(Drop)]
pub struct Source<'a> {
    text: Scan<'a>,
}

impl<'a> Model for Source<'a> {
    ghost use Rattle.std.specs.Prelude.{List, ℕ};

    ghost Value = { List ℕ };

    ghost view = { λ s. s.text };
}

impl<'a> Source<'a> {
    /// The whole of a text.
    pub fn new(text: &'a str) -> Source<'a>
        ensures { result ≡ chars text.now }
    {
        Source {
            text: Scan::new(text),
        }
    }

    /// The next character, which stays.
    pub fn peek(&self) -> Option<char>
        ensures { result ≡ slice_get self.now 0 }
    {
        self.text.peek()
    }

    /// Whether nothing is left.
    pub fn is_over(&self) -> bool
        ensures { MatchBool result (self.now ≡ []) (self.now ≡ [] → ⊥) }
    {
        self.peek().is_none()
    }

    /// How many characters are left.
    pub fn left(&self) -> usize
        ensures { result ≡ length self.now }
    {
        count(self.text.rest())
    }

    /// Takes the character, if it is the next.
    pub fn eat(&mut self, c: char) -> bool
        ensures { MatchBool result (self.old ≡ c ∷ self.new) ((self.new ≡ self.old) × NotNext c self.old) }
    {
        self.text.eat(c)
    }

    /// Whether the character comes next.
    pub fn is_next(&self, c: char) -> bool
        ensures { MatchBool result (NextIs c self.now) (NotNext c self.now) }
    {
        match self.peek() {
            Some(next) => next == c,
            None => false,
        }
    }

    /// Takes the characters of a class, as far as they come next.
    pub fn take_run<C: Class>(&mut self) -> &'a str
        ensures run { self.old ≡ chars result.now ++ self.new }
        ensures passes { list_all C.class (chars result.now) ≡ true }
        ensures ends { Ends C.class self.new }
        ensures shorter { length self.new ≤ length self.old }
    {
        self.text.take_run::<C>()
    }

    /// Takes the next character.
    pub fn skip(&mut self) -> Option<char>
        ensures { MatchOption result ((self.old ≡ []) × (self.new ≡ [])) (λ c. self.old ≡ c ∷ self.new) }
    {
        self.text.skip()
    }

    /// Takes white space, and says whether there was any.
    pub fn spaces(&mut self) -> bool
        ensures spaces { MatchBool result ((c : ℕ) × (ts : List ℕ) × (self.old ≡ c ∷ ts) × (is_space c ≡ true) × Spaces ts self.new) (self.new ≡ self.old) }
        ensures ends { Ends is_space self.new }
        ensures shorter { length self.new ≤ length self.old }
    {
        match self.peek() {
            Some(c) if Space::has(c) => {
                let _spaces = self.take_run::<Space>();
                true
            }
            _ => false,
        }
    }

    /// Takes the characters of a text, as far as they come next.
    pub(crate) fn eat_text(&mut self, text: &str) -> bool
        ensures eaten { MatchBool result (self.old ≡ chars text.now ++ self.new) (DiffersAt (chars text.now) self.old self.new) }
        ensures shorter { length self.new ≤ length self.old }
    {
        for c in text.chars() {
            if !self.eat(c) {
                return false;
            }
        }
        true
    }
}
