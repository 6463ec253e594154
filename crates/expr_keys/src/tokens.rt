// Tokens, and the pieces of direct elements (XPath 2.0, A.2; XQuery 1.0, 3.7.1 and A.2).
ghost use Rattle.std.specs.Prelude.{◌≡◌, IfOk};
ghost use Rattle.expr_keys.specs.Tokens.{binding_power};

use crate::keys::{Key, binding_power_of_key};
use std::alloc::AllocError;
use xt_names::{Share, Text};

/// A token, or a piece of a direct element.
#[derive(Drop)]
pub enum Token {
    /// Punctuation, or a word that some production names.
    Key(Key),
    /// An NCName that is no key.
    Name(Text),
    /// `p:n`, the prefix and the local part.
    Qname(Text, Text),
    /// `p:*`.
    AnyLocal(Text),
    /// `*:n`.
    AnyPrefix(Text),
    /// An integer literal; no negative number is one.
    Digits(i64),
    /// A string literal, without its quotes and with its references resolved.
    Quoted(Text),
    /// `<p:n` where an operand must stand: the prefix, which may be empty, and the local part.
    StartTagOpen(Text, Text),
    /// `<p:n` in the content of a direct element.
    ChildTagOpen(Text, Text),
    /// `p:n="`, the front of an attribute of a direct element.
    Attribute(Text, Text),
    /// The closing quote of an attribute.
    AttributeEnd,
    /// `>`, the end of a start tag.
    TagEnd,
    /// `/>`.
    EmptyEnd,
    /// `</p:n>`.
    EndTag(Text, Text),
    /// Characters of content or of an attribute, and whether they stand so in the text (and came of
    /// no reference).
    Chars(Text, bool),
    /// `{` in content or in an attribute.
    EnclosedOpen,
}

/// How far out the token binds after what is complete.
pub fn binding_power(token: &Token) -> u8
    ensures { result ≡ binding_power token.now }
{
    match token {
        Token::Key(key) => binding_power_of_key(*key),
        Token::ChildTagOpen(_, _)
        | Token::Attribute(_, _)
        | Token::Chars(_, _)
        | Token::EnclosedOpen => 1,
        Token::AttributeEnd | Token::TagEnd | Token::EmptyEnd | Token::EndTag(_, _) => 30,
        _ => 0,
    }
}

impl Token {
    /// The same token, which shares its texts.
    pub fn copy(&self) -> Result<Token, AllocError>
        ensures { IfOk result (λ copy. copy ≡ self.now) }
    {
        match self {
            Token::Key(key) => Ok(Token::Key(*key)),
            Token::Name(n) => Ok(Token::Name(n.copy()?)),
            Token::Qname(p, n) => Ok(Token::Qname(p.copy()?, n.copy()?)),
            Token::AnyLocal(p) => Ok(Token::AnyLocal(p.copy()?)),
            Token::AnyPrefix(n) => Ok(Token::AnyPrefix(n.copy()?)),
            Token::Digits(n) => Ok(Token::Digits(*n)),
            Token::Quoted(t) => Ok(Token::Quoted(t.copy()?)),
            Token::StartTagOpen(p, n) => Ok(Token::StartTagOpen(p.copy()?, n.copy()?)),
            Token::ChildTagOpen(p, n) => Ok(Token::ChildTagOpen(p.copy()?, n.copy()?)),
            Token::Attribute(p, n) => Ok(Token::Attribute(p.copy()?, n.copy()?)),
            Token::AttributeEnd => Ok(Token::AttributeEnd),
            Token::TagEnd => Ok(Token::TagEnd),
            Token::EmptyEnd => Ok(Token::EmptyEnd),
            Token::EndTag(p, n) => Ok(Token::EndTag(p.copy()?, n.copy()?)),
            Token::Chars(t, literal) => Ok(Token::Chars(t.copy()?, *literal)),
            Token::EnclosedOpen => Ok(Token::EnclosedOpen),
        }
    }
}

impl Share for Token {
    fn share(&self) -> Result<Token, AllocError> {
        self.copy()
    }
}
