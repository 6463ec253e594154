// Tokens, and the texts that they are taken from.
ghost use Rattle.std.specs.Prelude.{◌≤◌, List as Items, ℕ, false, length, take, drop, map};
ghost use Rattle.std.specs.Prelude.{IfOk, IfErr, IfSome, IfNone};
ghost use Rattle.std.specs.Str.{IsCharBoundary, chars};
ghost use Rattle.xpath_lex.specs.Readings.{placed, size, ends_in_digit, TokenAt, IsOver, FaultAt};
ghost use Rattle.xpath_lex.specs.Readings.{Tokens, Fault, IfBadToken};

use crate::faults::LexFault;
use crate::scans::{Scan, ends_in_digit};
use std::alloc::Global;
use xt_names::List;

/// What a token is.
#[derive(Clone, Copy)]
pub enum TokenKind {
    /// Digits.
    Integer,
    /// Text in quotes, with its quotes; a quote inside is doubled.
    Literal,
    /// A name without a colon.
    Word,
    /// A name with a colon.
    QWord,
    /// `p:*`
    AnyLocal,
    /// `*:n`
    AnyPrefix,
    /// Punctuation and operators that are no words.
    Symbol,
}

/// A token: what it is, its text as it is written, and the bytes of the source from which and up to
/// which it stands.
#[derive(Clone, Copy)]
pub struct Token<'a> {
    pub kind: TokenKind,
    pub text: &'a str,
    pub from: usize,
    pub to: usize,
}

impl<'a> Scan<'a> {
    /// Takes the token that comes next, of a text that has so many bytes.
    fn next_token(&mut self, total: usize, behind: bool) -> Result<Option<Token<'a>>, usize>
        requires { size self.old ≤ total }
        ensures token { IfOk result (λ read. IfSome read (λ t.
            TokenAt total behind self.old (placed t) self.new)) }
        ensures over { IfOk result (λ read. IfNone read (IsOver behind self.old)) }
        ensures fault { IfErr result (λ at. FaultAt total behind self.old at) }
    {
        let after = self.skip_gap(behind);
        let from = total - self.left();
        let begun = self.fork();
        match self.take_token(after) {
            Some(kind) => Ok(Some(Token {
                kind,
                text: begun.text_to(self),
                from,
                to: total - self.left(),
            })),
            None => { if begun.is_over() { Ok(None) } else { Err(from) } }
        }
    }
}

/// The token at the byte, after white space and comments; none where the text is over (XPath 2.0,
/// A.2). The error is the byte at which something stands and no token begins; a comment that is not
/// closed stands where its `(:` does. It takes no memory.
pub fn token_at(text: &str, place: usize) -> Result<Option<Token<'_>>, usize>
    requires { IsCharBoundary text.now place }
    // A token that is told is the longest at its place.
    ensures token { IfOk result (λ read. IfSome read (λ t. (rest : Items ℕ)
        × TokenAt (length text.now) (ends_in_digit (chars (take place text.now)))
        (chars (drop place text.now)) (placed t) rest)) }
    // Where none is told, the text is over.
    ensures over { IfOk result (λ read. IfNone read
        (IsOver (ends_in_digit (chars (take place text.now))) (chars (drop place text.now)))) }
    // Where the error comes, no token begins there.
    ensures fault { IfErr result (λ at.
        FaultAt (length text.now) (ends_in_digit (chars (take place text.now)))
        (chars (drop place text.now)) at) }
{
    let behind = ends_in_digit(&text[..place]);
    let mut scan = Scan::new(&text[place..]);
    scan.next_token(text.len(), behind)
}

/// All tokens of the text. BadToken comes exactly where `token_at` gives that error on the way.
pub fn tokens(alloc: Global, text: &str) -> Result<List<Token<'_>>, LexFault>
    // The tokens come after one another, from the text's beginning to its end.
    ensures tokens { IfOk result (λ list.
        Tokens (length text.now) false (chars text.now) (map placed list)) }
    // BadToken has the place after tokens where none begins.
    ensures fault { IfErr result (λ why. IfBadToken why (λ at.
        Fault (length text.now) false (chars text.now) at)) }
{
    let mut list = List::new(alloc);
    let mut scan = Scan::new(text);
    let mut behind = false;
    loop {
        match scan.next_token(text.len(), behind) {
            Ok(Some(token)) => {
                list.push(token)?;
                behind = ends_in_digit(token.text);
            }
            Ok(None) => return Ok(list),
            Err(at) => return Err(LexFault::BadToken(at)),
        }
    }
}
