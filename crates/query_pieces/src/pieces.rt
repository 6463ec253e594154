// The text of a query, read token by token.
ghost use Rattle.std.specs.Prelude.{◌≡◌, ◌∷◌, List, Bool, ℕ, true, false, IfOk, slice_get, Some, codes};
ghost use Rattle.std.specs.Str.{chars, bytes_eq};
ghost use Rattle.xt_names.specs.Characters.{starts_name};
ghost use Rattle.xpath_lex.specs.Readings.{Placed, IsOver};
ghost use Rattle.query_pieces.specs.Points.{start, is_enclosed, in_expression, change_of, change_of_key, before_of, before_of_key, moved, Point};
ghost use Rattle.query_pieces.specs.Fronts.{begins};
ghost use Rattle.query_pieces.specs.Readings.{touches, may_open, opens, IsNext, Reads, Splits};
ghost use Rattle.query_pieces.specs.Answers.{Answers, Stays};
ghost use Rattle.query_pieces.specs.Aheads.{Leads, Sees};
ghost use Rattle.expr_terms.specs.Choices.{open_next, second_of};
ghost use Rattle.query_pieces.specs.declared.contexts.Before.TheVariants.{Other as other};

use crate::aheads::{Ahead, next_of};
use crate::contexts::{Before, Change, Context};
use crate::elements::piece_at;
use crate::scans::Scan;
use crate::seconds::{is_brace, is_name, second_by};
use crate::spellings::spelled;
use crate::stacks::Stack;
use expr_terms::{Key, Second, Token};
use std::alloc::{AllocError, Global};
use std::marker::Model;
use xpath_lex::TokenKind;
use xt_names::{Text, is_ascii_text};

/// What a text holds next.
#[derive(Drop)]
pub enum Found {
    /// A token of an expression, or a piece of a direct element.
    Token(Token),
    /// Nothing but white space and comments, and nothing is open.
    End,
    /// Nothing that may be read there.
    Nothing,
}

/// The text of a query, as far as it was read; contracts see the point where the reading stands.
#[derive(Drop)]
pub struct Pieces<'a> {
    /// What is left.
    rest: &'a str,
    contexts: Stack,
    before: Before,
}

impl<'a> Model for Pieces<'a> {
    ghost use Rattle.std.specs.Str.{chars};
    ghost use Rattle.query_pieces.specs.Points.{Point};

    ghost Value = { Point };

    ghost view = { λ s. record {
      contexts = s.contexts;
      before = s.before;
      rest = chars s.rest.now;
    } };
}

fn is_enclosed(context: Context) -> bool
    ensures { result ≡ is_enclosed context }
{
    match context {
        Context::Enclosed => true,
        _ => false,
    }
}

fn change_of_key(key: Key) -> Change
    ensures { result ≡ change_of_key key }
{
    match key {
        Key::OpenBrace => Change::Enters(Context::Enclosed),
        Key::CloseBrace => Change::Leaves,
        _ => Change::Stays,
    }
}

fn change_of(token: &Token) -> Change
    ensures { result ≡ change_of token.now }
{
    match token {
        Token::Key(key) => change_of_key(*key),
        _ => Change::Stays,
    }
}

fn before_of_key(key: Key) -> Before
    ensures { result ≡ before_of_key key }
{
    match key {
        Key::Slash => Before::Slash,
        _ => Before::Other,
    }
}

fn before_of(token: &Token) -> Before
    ensures { result ≡ before_of token.now }
{
    match token {
        Token::Key(key) => before_of_key(*key),
        Token::Digits(_) => Before::Integer,
        _ => Before::Other,
    }
}

/// Whether a name begins here.
fn begins_name(text: &str) -> bool
    ensures { result ≡ begins starts_name (chars text.now) }
{
    Scan::new(text).begins_name()
}

/// Whether a name begins directly after digits.
fn touches(before: Before, text: &str) -> bool
    ensures { result ≡ touches before (chars text.now) }
{
    match before {
        Before::Integer => begins_name(text),
        _ => false,
    }
}

fn may_open(operand: bool, before: Before) -> bool
    ensures { result ≡ may_open operand before }
{
    match before {
        Before::Slash => true,
        _ => operand,
    }
}

/// Whether the token begins a direct element.
fn opens(operand: bool, before: Before, token: &str, rest: &str) -> bool
    ensures { result ≡ opens operand before (chars token.now) (chars rest.now) }
{
    may_open(operand, before) && is_ascii_text(token, "<") && begins_name(rest)
}

impl<'a> Pieces<'a> {
    /// Before the first token of the text.
    pub fn new(alloc: Global, text: &'a str) -> Pieces<'a>
        ensures { result ≡ start (chars text.now) }
    {
        Pieces {
            rest: text,
            contexts: Stack::new(alloc),
            before: Before::Other,
        }
    }

    /// Goes after the token, which left so much of the text.
    fn go(&mut self, token: Token, change: Change, rest: &'a str) -> Result<Found, AllocError>
        ensures { IfOk result (λ found. (found ≡ Found.Token token)
            × (self.new ≡ moved self.old token change (chars rest.now))) }
    {
        self.contexts.change(change)?;
        self.before = before_of(&token);
        self.rest = rest;
        Ok(Found::Token(token))
    }

    /// Takes the front of a direct element, whose `<` this is left behind.
    #[tactic(auto, using(crate::proofs::AnswerLemmas::staying))]
    fn open(&mut self, alloc: Global, rest: &'a str) -> Result<Found, AllocError>
        ensures answers { IfOk result (λ found. (operand : Bool) (u : Placed)
            → IsNext self.old u (chars rest.now)
            → opens operand self.old.before u.characters (chars rest.now) ≡ true
            → Answers operand self.old found self.new) }
        ensures stays { IfOk result (λ found. Stays found self.old self.new) }
    {
        let mut scan = Scan::new(rest);
        match scan.name() {
            Some((prefix, local)) => {
                let prefix = Text::make(alloc, prefix)?;
                let local = Text::make(alloc, local)?;
                let token = Token::StartTagOpen(prefix, local);
                self.go(token, Change::Enters(Context::Tag), scan.rest())
            }
            None => Ok(Found::Nothing),
        }
    }

    /// Takes a token of expressions, which this is left behind.
    #[tactic(auto, using(crate::proofs::AnswerLemmas::staying))]
    fn spell(
        &mut self,
        alloc: Global,
        kind: TokenKind,
        text: &str,
        rest: &'a str,
    ) -> Result<Found, AllocError>
        ensures answers { IfOk result (λ found. (operand : Bool) (u : Placed)
            → IsNext self.old u (chars rest.now) → u.kind ≡ kind → u.characters ≡ chars text.now
            → opens operand self.old.before u.characters (chars rest.now) ≡ false
            → Answers operand self.old found self.new) }
        ensures stays { IfOk result (λ found. Stays found self.old self.new) }
    {
        match spelled(alloc, kind, text)? {
            Some(token) => {
                let change = change_of(&token);
                self.go(token, change, rest)
            }
            None => Ok(Found::Nothing),
        }
    }

    /// What is told where white space and comments alone are left.
    fn over(&self) -> Found
        requires { IsOver false self.now.rest }
        ensures { (operand : Bool) (q : Point) → in_expression self.now.contexts ≡ true
            → Answers operand self.now result q }
    {
        match self.contexts.top() {
            None => Found::End,
            Some(_) => Found::Nothing,
        }
    }

    /// Takes what stands next between tokens of expressions.
    #[tactic(auto, using(crate::proofs::AnswerLemmas::staying))]
    fn read_token(
        &mut self,
        alloc: Global,
        operand: bool,
        ahead: Ahead<'a>,
    ) -> Result<Found, AllocError>
        requires inside { in_expression self.old.contexts ≡ true }
        requires leads { Leads self.old.rest ahead }
        ensures answers { IfOk result (λ found. Answers operand self.old found self.new) }
        ensures stays { IfOk result (λ found. Stays found self.old self.new) }
    {
        if touches(self.before, self.rest) {
            return Ok(Found::Nothing);
        }
        match ahead {
            Ahead::Token(kind, text, rest) => {
                if opens(operand, self.before, text, rest) {
                    self.open(alloc, rest)
                } else {
                    self.spell(alloc, kind, text, rest)
                }
            }
            Ahead::Over => Ok(self.over()),
            Ahead::Fault => Ok(Found::Nothing),
        }
    }

    /// Takes a piece of a direct element.
    #[tactic(auto, using(crate::proofs::AnswerLemmas::staying))]
    fn read_piece(&mut self, alloc: Global, context: Context) -> Result<Found, AllocError>
        requires top { (cs : List Context) × (self.old.contexts ≡ context ∷ cs) }
        requires element { is_enclosed context ≡ false }
        ensures answers { IfOk result (λ found. (operand : Bool)
            → Answers operand self.old found self.new) }
        ensures stays { IfOk result (λ found. Stays found self.old self.new) }
    {
        let mut scan = Scan::new(self.rest);
        match piece_at(alloc, &mut scan, context)? {
            Some((token, change)) => self.go(token, change, scan.rest()),
            None => Ok(Found::Nothing),
        }
    }

    /// Takes the token or piece that stands next, of which this is seen. `operand` says whether an
    /// operand may be there: where one may, `<` directly before a name begins a direct element
    /// (XQuery 1.0, 3.7.1). End is told where the text is over, and Nothing where no token and no
    /// piece may be read; then the reading stays where it is.
    #[tactic(auto, using(crate::proofs::AnswerLemmas::staying))]
    pub fn read(
        &mut self,
        alloc: Global,
        operand: bool,
        ahead: Option<Ahead<'a>>,
    ) -> Result<Found, AllocError>
        requires { Sees self.old ahead }
        ensures answers { IfOk result (λ found. Answers operand self.old found self.new) }
        ensures stays { IfOk result (λ found. Stays found self.old self.new) }
    {
        match ahead {
            Some(ahead) => self.read_token(alloc, operand, ahead),
            None => match self.contexts.top() {
                None => Ok(Found::Nothing),
                Some(context) => self.read_piece(alloc, context),
            },
        }
    }

    /// Whether tokens of expressions stand here.
    fn in_expression(&self) -> bool
        ensures { result ≡ in_expression self.now.contexts }
    {
        match self.contexts.top() {
            Some(context) => is_enclosed(context),
            None => true,
        }
    }

    /// What stands next between tokens of expressions; None inside the tags and the content of a
    /// direct element. Nothing is taken.
    pub fn ahead(&self) -> Option<Ahead<'a>>
        ensures { Sees self.now result }
    {
        if self.in_expression() {
            Some(next_of(self.rest))
        } else {
            None
        }
    }
}

/// What the tokens that come next, of which this is seen, tell of the one before them: that `(`,
/// `::`, `$`, `{`, or a name and `{` is there, or none of these.
pub fn second(ahead: Option<Ahead<'_>>) -> Second
    ensures { (p : Point) (ts : List Token) → Sees p ahead.entry → Splits p ts
        → result ≡ second_of ts }
{
    match ahead {
        Some(Ahead::Token(kind, text, rest)) => second_at(kind, text, rest),
        Some(Ahead::Over) => Second::Alone,
        Some(Ahead::Fault) => Second::Alone,
        None => Second::Alone,
    }
}

/// Whether `<` comes next and directly after it a name, where this is seen. Elsewhere it does not
/// matter whether an operand may be there.
pub fn asks(ahead: Option<Ahead<'_>>) -> bool
    ensures { result ≡ false → (p : Point) → Sees p ahead.entry → (a b : Bool) (t : Token)
        (q : Point) → Reads a p t q → Reads b p t q }
{
    match ahead {
        Some(Ahead::Token(_, text, rest)) => is_ascii_text(text, "<") && begins_name(rest),
        Some(Ahead::Over) => false,
        Some(Ahead::Fault) => false,
        None => false,
    }
}

/// Whether `{` comes next.
fn opens_brace(text: &str) -> bool
    ensures { (s : List Context) (ts : List Token) → in_expression s ≡ true
        → Splits (record { contexts = s; before = other; rest = chars text.now }) ts
        → result ≡ open_next ts }
{
    match next_of(text) {
        Ahead::Token(kind, text, _) => is_brace(second_by(kind, text)),
        Ahead::Over => false,
        Ahead::Fault => false,
    }
}

/// What the token, and what is left after it, tell of the word before.
fn second_at(kind: TokenKind, text: &str, rest: &str) -> Second
    ensures { (p : Point) (u : Placed) (ts : List Token) → IsNext p u (chars rest.now)
        → u.kind ≡ kind → u.characters ≡ chars text.now → Splits p ts → result ≡ second_of ts }
{
    if is_name(kind, text) && opens_brace(rest) {
        Second::BeforeNamed
    } else {
        second_by(kind, text)
    }
}
