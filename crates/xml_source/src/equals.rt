// The `=` before the value of an attribute, and quotes.
ghost use Rattle.std.specs.Prelude.{◌≡◌, ◌≤◌, ◌<◌, ◌∷◌, [], ℕ, true, length, IfSome, OnSome, MatchOption};
ghost use Rattle.xt_names.specs.Characters.{is_quote, NotNext};
ghost use Rattle.doc_grammar.specs.RawNames.{RawName as Name, RawTag as Tag};
ghost use Rattle.doc_grammar.specs.Forms.{Form};
ghost use Rattle.doc_grammar.specs.Prolog as prolog;
ghost use Rattle.doc_grammar.specs.Machine.{Stack, equals, valued, other};
ghost use Rattle.xml_source.specs.Reading.{reads, Fails};
ghost use Rattle.xml_source.specs.Spelling.{spells, stops};
ghost use Rattle.doc_grammar.specs.Signs as sign;

use crate::sources::Source;

impl<'a> Source<'a> {
    /// Takes `=` with the white space around it, and the quote after it.
    pub fn equals(&mut self) -> Option<char>
        ensures assigns { (t : Tag) (name : Name) (st : Stack) → MatchOption result (Fails (reads self.old (equals t name st)) self.new)
            (λ q. (is_quote q ≡ true) × (reads self.old (equals t name st) ≡ reads self.new (valued t name q [] st))) }
        ensures spelled { MatchOption result
            ((inner : ℕ → Form) → spells self.old (prolog.equals (prolog.quoted inner)) ≡ stops other self.new)
            (λ q. (inner : ℕ → Form) → spells self.old (prolog.equals (prolog.quoted inner)) ≡ spells self.new (inner q)) }
        ensures quotes { IfSome result (λ q. is_quote q ≡ true) }
        ensures falls { OnSome result (length self.new < length self.old) }
        ensures shorter { length self.new ≤ length self.old }
    {
        let _before = self.spaces();
        if !self.eat('=') {
            return None;
        }
        let _behind = self.spaces();
        self.quote()
    }

    /// Takes a quote, if one comes next.
    #[tactic(auto, unfolding(xt_names::specs::Characters::is_quote))]
    pub(crate) fn quote(&mut self) -> Option<char>
        ensures quotes { MatchOption result ((self.new ≡ self.old) × NotNext sign.double_quote self.old × NotNext sign.single_quote self.old) (λ q. (self.old ≡ q ∷ self.new) × (is_quote q ≡ true)) }
        ensures falls { OnSome result (length self.new < length self.old) }
        ensures shorter { length self.new ≤ length self.old }
    {
        if self.eat('"') {
            return Some('"');
        }
        if self.eat('\'') {
            return Some('\'');
        }
        None
    }
}
