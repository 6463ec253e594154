// What is left of a text, and how it is taken character by character and in runs.
ghost use Rattle.std.specs.Prelude.{◌≡◌, ◌++◌, ◌∷◌, [], ◌≤◌, length, true, List, ℕ, slice_get, MatchBool};
ghost use Rattle.std.specs.List.{list_all};
ghost use Rattle.std.specs.Str.{chars};
ghost use Rattle.xt_names.specs.Characters.{Ends, NotNext};
ghost use Rattle.xpath_lex.specs.Readings.{size, ends_in_digit};

use crate::classes::is_digit;
use std::marker::Model;
use text_scan::Class;

/// What is left of a text; contracts see its characters.
#[derive(Drop)]
pub(crate) struct Scan<'a> {
    text: text_scan::Scan<'a>,
}

impl<'a> Model for Scan<'a> {
    ghost use Rattle.std.specs.Prelude.{List, ℕ};

    ghost Value = { List ℕ };

    ghost view = { λ s. s.text };
}

impl<'a> Scan<'a> {
    pub(crate) fn new(text: &'a str) -> Scan<'a>
        ensures { result ≡ chars text.now }
    {
        Scan {
            text: text_scan::Scan::new(text),
        }
    }

    /// Another one that is at the same place.
    pub(crate) fn fork(&self) -> Scan<'a>
        ensures { result ≡ self.now }
    {
        Scan::new(self.text.rest())
    }

    /// How many bytes are left.
    pub(crate) fn left(&self) -> usize
        ensures { result ≡ size self.now }
    {
        bytes_in(self.text.rest())
    }

    /// The next character, which stays.
    pub(crate) fn peek(&self) -> Option<char>
        ensures { result ≡ slice_get self.now 0 }
    {
        self.text.peek()
    }

    /// Whether nothing is left.
    pub(crate) fn is_over(&self) -> bool
        ensures { MatchBool result (self.now ≡ []) (self.now ≡ [] → ⊥) }
    {
        self.peek().is_none()
    }

    /// Takes the character, if it is the next.
    pub(crate) fn eat(&mut self, c: char) -> bool
        ensures { MatchBool result
            (self.old ≡ c ∷ self.new) ((self.new ≡ self.old) × NotNext c self.old) }
    {
        self.text.eat(c)
    }

    /// Takes the characters of a class, as far as they come next.
    pub(crate) fn take_run<C: Class>(&mut self)
        ensures taken { (run : List ℕ)
            × (self.old ≡ run ++ self.new) × (list_all C.class run ≡ true) }
        ensures ends { Ends C.class self.new }
        ensures shorter { length self.new ≤ length self.old }
    {
        let _run = self.text.take_run::<C>();
    }

    /// The text that was taken since another one stood at the place where this one stands.
    pub(crate) fn text_to(&self, end: &Scan<'a>) -> &'a str
        requires { (run : List ℕ) × (self.now ≡ run ++ end.now) }
        ensures { self.now ≡ chars result.now ++ end.now }
    {
        front(self.text.rest(), end.text.rest())
    }
}

fn bytes_in(text: &str) -> usize
    ensures { result ≡ size (chars text.now) }
{
    text.len()
}

/// What comes before the rest of a text.
fn front<'a>(text: &'a str, rest: &str) -> &'a str
    requires { (run : List ℕ) × (chars text.now ≡ run ++ chars rest.now) }
    ensures { chars text.now ≡ chars result.now ++ chars rest.now }
{
    &text[..text.len() - rest.len()]
}

/// Whether the last character is a digit.
pub(crate) fn ends_in_digit(text: &str) -> bool
    ensures { result ≡ ends_in_digit (chars text.now) }
{
    let mut chars = text.chars();
    let last = chars.next_back();
    let _front = chars.as_str();
    match last {
        Some(c) => is_digit(c),
        None => false,
    }
}
