// Names, as they are written.
ghost use Rattle.std.specs.Prelude.{◌≡◌, ◌++◌, ◌∷◌, ◌≤◌, length, MatchOption, MatchBool};
ghost use Rattle.std.specs.Str.{chars};
ghost use Rattle.xt_names.specs.Characters.{starts_name, Ends};
ghost use Rattle.doc_grammar.specs.Lexemes.{NCName};
ghost use Rattle.doc_grammar.specs.Document.{QName};
ghost use Rattle.doc_grammar.specs.RawNames.{written_name};
ghost use Rattle.xml_source.specs.Sources.{NoName, DiffersAt};

use crate::classes::{NameChar, starts_name};
use crate::sources::Source;

/// A name as it is written.
#[derive(Clone, Copy)]
pub struct RawName<'a> {
    /// What comes before the colon, if there is one.
    pub prefix: Option<&'a str>,
    /// What comes after the colon, or the whole name.
    pub local: &'a str,
}

impl<'a> Source<'a> {
    ghost use Rattle.xml_source.specs.View.{name_of};

    /// Takes a name without a colon.
    pub fn ncname(&mut self) -> Option<&'a str>
        ensures shorter { length self.new ≤ length self.old }
        ensures name { MatchOption result ((self.new ≡ self.old) × Ends starts_name self.old) (λ name. NCName self.old (chars name.now) self.new) }
    {
        match self.peek() {
            Some(c) if starts_name(c) => Some(self.take_run::<NameChar>()),
            _ => None,
        }
    }

    /// Takes a qualified name.
    pub fn name(&mut self) -> Option<RawName<'a>>
        ensures name { MatchOption result (NoName self.old self.new) (λ name. QName self.old (name_of name) self.new) }
        ensures shorter { length self.new ≤ length self.old }
    {
        let first = self.ncname()?;
        if !self.eat(':') {
            return Some(RawName {
                prefix: None,
                local: first,
            });
        }
        let local = self.ncname()?;
        Some(RawName {
            prefix: Some(first),
            local,
        })
    }

    /// Takes the name of an end tag, as far as it is this one.
    pub fn end_name(&mut self, name: RawName<'_>) -> bool
        ensures eaten { MatchBool result (self.old ≡ written_name (name_of name.entry) ++ self.new) (DiffersAt (written_name (name_of name.entry)) self.old self.new) }
        ensures shorter { length self.new ≤ length self.old }
    {
        let Some(prefix) = name.prefix else {
            return self.eat_text(name.local);
        };
        if !self.eat_text(prefix) {
            return false;
        }
        if !self.eat(':') {
            return false;
        }
        self.eat_text(name.local)
    }
}
