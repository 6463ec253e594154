// The longest token at a place, by the character that is there.
ghost use Rattle.std.specs.Prelude.{◌≡◌, ◌≤◌, ◌++◌, ◌∷◌, List, ℕ, Bool, true, false, length, None, MatchBool, MatchOption};
ghost use Rattle.std.specs.List.{list_all};
ghost use Rattle.xt_names.specs.Classes.{is_ncname_text};
ghost use Rattle.xpath_lex.specs.Classes.{is_digit};
ghost use Rattle.xt_names.specs.Characters.{starts_name, is_name_char, is_quote, Ends};
ghost use Rattle.xpath_lex.specs.Runs.{IsMark, bars, is_inside, literal_rest};
ghost use Rattle.xpath_lex.specs.Tokens.{Longest, NoneBegins};

use crate::classes::{
    Digit, DoubleQuoted, NameChar, SingleQuoted, is_digit, is_double, is_quote, is_single,
    starts_name,
};
use crate::lexing::TokenKind;
use crate::scans::Scan;

impl<'a> Scan<'a> {
    /// Takes the longest token, if one begins here. The truth value says whether a digit stands
    /// directly before it.
    pub(crate) fn take_token(&mut self, behind: bool) -> Option<TokenKind>
        ensures { MatchOption result
            (NoneBegins behind self.old)
            (λ kind. (run : List ℕ) × Longest behind self.old kind run self.new) }
    {
        match self.peek() {
            None => None,
            Some(c) if starts_name(c) => {
                if behind {
                    return None;
                }
                Some(self.take_name())
            }
            Some(c) if is_digit(c) => self.take_number(),
            Some(c) if is_quote(c) => self.take_literal(c),
            Some(c) => self.take_mark(c),
        }
    }

    /// Takes a number; none where a point and a digit follow the digits.
    fn take_number(&mut self) -> Option<TokenKind>
        requires { (c : ℕ) × (ts : List ℕ) × (self.old ≡ c ∷ ts) × (is_digit c ≡ true) }
        ensures { (behind : Bool) → MatchOption result
            (NoneBegins behind self.old)
            (λ kind. (run : List ℕ) × Longest behind self.old kind run self.new) }
    {
        self.take_run::<Digit>();
        let end = self.fork();
        if self.eat('.') {
            if self.is_before_digit() {
                return None;
            }
            *self = end;
        }
        Some(TokenKind::Integer)
    }

    fn is_before_digit(&self) -> bool
        ensures { MatchBool result
            ((d : ℕ) × (ts : List ℕ) × (self.now ≡ d ∷ ts) × (is_digit d ≡ true))
            (Ends is_digit self.now) }
    {
        match self.peek() {
            Some(c) => is_digit(c),
            None => false,
        }
    }

    /// Takes a literal between such quotes; none where it is not closed.
    fn take_literal(&mut self, quote: char) -> Option<TokenKind>
        requires first { (ts : List ℕ) × (self.old ≡ quote ∷ ts) }
        requires quote { is_quote quote ≡ true }
        ensures { (behind : Bool) → MatchOption result
            (NoneBegins behind self.old)
            (λ kind. (run : List ℕ) × Longest behind self.old kind run self.new) }
    {
        let _opened = self.eat(quote);
        let end = self.find_end(quote)?;
        *self = end;
        Some(TokenKind::Literal)
    }

    /// What is left after a literal whose opening quote was taken; none where it is not closed.
    fn find_end(&mut self, quote: char) -> Option<Scan<'a>>
        requires { is_quote quote ≡ true }
        ensures { result ≡ literal_rest quote false self.old None }
    {
        let mut end = None;
        loop {
            self.take_inside(quote);
            if !self.eat(quote) {
                return end;
            }
            let behind = self.fork();
            if !self.eat(quote) {
                return Some(behind);
            }
            end = Some(behind);
        }
    }

    /// Takes what is in a literal between such quotes, up to the next quote.
    fn take_inside(&mut self, quote: char)
        requires { is_quote quote ≡ true }
        ensures taken { (run : List ℕ)
            × (self.old ≡ run ++ self.new) × (list_all (is_inside quote) run ≡ true) }
        ensures ends { Ends (is_inside quote) self.new }
        ensures shorter { length self.new ≤ length self.old }
    {
        if quote == '"' {
            self.take_run::<DoubleQuoted>();
        } else {
            self.take_run::<SingleQuoted>();
        }
    }

    /// Takes a name, or two joined by a colon, or a name, a colon and a star.
    fn take_name(&mut self) -> TokenKind
        requires { (c : ℕ) × (ts : List ℕ) × (self.old ≡ c ∷ ts) × (starts_name c ≡ true) }
        ensures { (run : List ℕ) × Longest false self.old result run self.new }
    {
        self.take_run::<NameChar>();
        if self.take_local() {
            return TokenKind::QWord;
        }
        if self.take_colon_star() {
            return TokenKind::AnyLocal;
        }
        TokenKind::Word
    }

    /// Takes a colon and a name, if they come next.
    fn take_local(&mut self) -> bool
        ensures { MatchBool result
            ((name : List ℕ) × (self.old ≡ 58 ∷ (name ++ self.new))
            × (is_ncname_text name ≡ true) × Ends is_name_char self.new)
            ((self.new ≡ self.old) × ((z : List ℕ) → self.old ≡ 58 ∷ z → Ends starts_name z)) }
    {
        let before = self.fork();
        if self.eat(':') {
            match self.peek() {
                Some(c) if starts_name(c) => {
                    self.take_run::<NameChar>();
                    return true;
                }
                _ => {}
            }
            *self = before;
        }
        false
    }

    /// Takes `:*`, if it comes next.
    fn take_colon_star(&mut self) -> bool
        ensures { MatchBool result (self.old ≡ 58 ∷ 42 ∷ self.new)
            ((self.new ≡ self.old) × ((z : List ℕ) → self.old ≡ 58 ∷ 42 ∷ z → ⊥)) }
    {
        let before = self.fork();
        if self.eat(':') {
            if self.eat('*') {
                return true;
            }
            *self = before;
        }
        false
    }

    /// Takes a symbol, or a star, a colon and a name.
    fn take_mark(&mut self, c: char) -> Option<TokenKind>
        requires first { (ts : List ℕ) × (self.old ≡ c ∷ ts) }
        requires mark { IsMark c }
        ensures { (behind : Bool) → MatchOption result
            (NoneBegins behind self.old)
            (λ kind. (run : List ℕ) × Longest behind self.old kind run self.new) }
    {
        let _taken = self.eat(c);
        if self.take_behind_star(c) {
            return Some(TokenKind::AnyPrefix);
        }
        match self.peek() {
            Some(d) if bars(c, d) => None,
            Some(d) if is_double(c, d) => {
                let _second = self.eat(d);
                Some(TokenKind::Symbol)
            }
            _ if is_single(c) => Some(TokenKind::Symbol),
            _ => None,
        }
    }

    /// Takes a colon and a name after a star, if they come next.
    fn take_behind_star(&mut self, c: char) -> bool
        ensures { MatchBool result
            ((c ≡ 42) × ((name : List ℕ) × (self.old ≡ 58 ∷ (name ++ self.new))
            × (is_ncname_text name ≡ true) × Ends is_name_char self.new))
            ((self.new ≡ self.old)
            × (c ≡ 42 → (z : List ℕ) → self.old ≡ 58 ∷ z → Ends starts_name z)) }
    {
        c == '*' && self.take_local()
    }
}

/// Whether a comment or a number with a point begins with the two characters.
#[tactic(auto, unfolding(crate::specs::Runs::bars))]
fn bars(c: char, d: char) -> bool
    ensures { result ≡ bars c d }
{
    (c == '(' && d == ':') || (c == '.' && is_digit(d))
}
