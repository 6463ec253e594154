// Which tokens a class has.
ghost use Rattle.std.specs.Prelude.{◌≡◌, ◌∷◌, []};
ghost use Rattle.expr_keys.specs.Tokens.{fits_key, fits_name, fits_word, fits_axis, fits_function, fits_wild};
ghost use Rattle.expr_keys.specs.Classes.{tight, fits, fits_digits, fits_any, begins_step, is_after_root, begins, sign_class, mark_class, way_class, quantifier_class, plain_class, named_class, enclosing_class, maker_class};
ghost use Rattle.expr_keys.specs.Keys.{dollar, open_paren, dot, dots, at_sign};

use crate::keys::{Key, is_axis, is_reserved, is_worded, same_key};
use crate::productions::{Class, Level, Nonterminal};
use crate::tokens::{Token, binding_power};

/// The binding power of the operators of the level.
pub fn tight(of: Level) -> u8
    ensures { result ≡ tight of }
{
    match of {
        Level::Or => 14,
        Level::And => 13,
        Level::Comparison => 12,
        Level::Range => 11,
        Level::Additive => 10,
        Level::Multiplicative => 9,
        Level::Union => 8,
        Level::Intersect => 7,
        Level::InstanceOf => 6,
        Level::Treat => 5,
        Level::Castable => 4,
        Level::Cast => 3,
    }
}

/// Whether the token is the key.
pub fn fits_key(key: Key, token: &Token) -> bool
    ensures { result ≡ fits_key key token.now }
{
    match token {
        Token::Key(other) => same_key(key, *other),
        _ => false,
    }
}

/// Whether the token is a QName.
pub fn fits_name(token: &Token) -> bool
    ensures { result ≡ fits_name token.now }
{
    match token {
        Token::Key(key) => is_worded(*key),
        Token::Name(_) | Token::Qname(_, _) => true,
        _ => false,
    }
}

/// Whether the token is an NCName.
pub fn fits_word(token: &Token) -> bool
    ensures { result ≡ fits_word token.now }
{
    match token {
        Token::Key(key) => is_worded(*key),
        Token::Name(_) => true,
        _ => false,
    }
}

/// Whether the token is the name of an axis.
pub fn fits_axis(token: &Token) -> bool
    ensures { result ≡ fits_axis token.now }
{
    match token {
        Token::Key(key) => is_axis(*key),
        _ => false,
    }
}

/// Whether the token may name a function.
pub fn fits_function(token: &Token) -> bool
    ensures { result ≡ fits_function token.now }
{
    match token {
        Token::Key(key) => {
            if is_reserved(*key) {
                false
            } else {
                is_worded(*key)
            }
        }
        Token::Name(_) | Token::Qname(_, _) => true,
        _ => false,
    }
}

/// Whether the token is `*`, `p:*` or `*:n`.
pub fn fits_wild(token: &Token) -> bool
    ensures { result ≡ fits_wild token.now }
{
    match token {
        Token::Key(key) => same_key(Key::Star, *key),
        Token::AnyLocal(_) | Token::AnyPrefix(_) => true,
        _ => false,
    }
}

fn fits_digits(token: &Token) -> bool
    ensures { result ≡ fits_digits token.now }
{
    match token {
        Token::Digits(n) => 0 <= *n,
        _ => false,
    }
}

fn fits_sign_class(token: &Token) -> bool
    ensures { result ≡ fits sign_class token.now }
{
    match token {
        Token::Key(key) => match key {
            Key::Plus | Key::Minus => true,
            _ => false,
        },
        _ => false,
    }
}

fn fits_mark_class(token: &Token) -> bool
    ensures { result ≡ fits mark_class token.now }
{
    match token {
        Token::Key(key) => match key {
            Key::Question | Key::Star | Key::Plus => true,
            _ => false,
        },
        _ => false,
    }
}

fn fits_way_class(token: &Token) -> bool
    ensures { result ≡ fits way_class token.now }
{
    match token {
        Token::Key(key) => match key {
            Key::AscendingWord | Key::DescendingWord => true,
            _ => false,
        },
        _ => false,
    }
}

fn fits_quantifier_class(token: &Token) -> bool
    ensures { result ≡ fits quantifier_class token.now }
{
    match token {
        Token::Key(key) => match key {
            Key::SomeWord | Key::EveryWord => true,
            _ => false,
        },
        _ => false,
    }
}

fn fits_plain_class(token: &Token) -> bool
    ensures { result ≡ fits plain_class token.now }
{
    match token {
        Token::Key(key) => match key {
            Key::NodeWord | Key::TextWord | Key::CommentWord | Key::DocumentNodeWord => true,
            _ => false,
        },
        _ => false,
    }
}

fn fits_named_class(token: &Token) -> bool
    ensures { result ≡ fits named_class token.now }
{
    match token {
        Token::Key(key) => match key {
            Key::ElementWord | Key::AttributeWord => true,
            _ => false,
        },
        _ => false,
    }
}

fn fits_enclosing_class(token: &Token) -> bool
    ensures { result ≡ fits enclosing_class token.now }
{
    match token {
        Token::Key(key) => match key {
            Key::DocumentWord | Key::TextWord | Key::CommentWord => true,
            _ => false,
        },
        _ => false,
    }
}

fn fits_maker_class(token: &Token) -> bool
    ensures { result ≡ fits maker_class token.now }
{
    match token {
        Token::Key(key) => match key {
            Key::ElementWord | Key::AttributeWord | Key::ProcessingInstructionWord => true,
            _ => false,
        },
        _ => false,
    }
}

/// Whether the token is of the class.
pub fn fits(class: Class, token: &Token) -> bool
    ensures { result ≡ fits class token.now }
{
    match class {
        Class::Key(key) => fits_key(key, token),
        Class::Sign => fits_sign_class(token),
        Class::Mark => fits_mark_class(token),
        Class::Way => fits_way_class(token),
        Class::Quantifier => fits_quantifier_class(token),
        Class::PlainKind => fits_plain_class(token),
        Class::NamedKind => fits_named_class(token),
        Class::Encloser => fits_enclosing_class(token),
        Class::Maker => fits_maker_class(token),
        Class::Operator(level) => binding_power(token) == tight(level),
        Class::Digits => fits_digits(token),
        Class::Quoted => matches!(token, Token::Quoted(_)),
        Class::Axis => fits_axis(token),
        Class::Word => fits_word(token),
        Class::Name => fits_name(token),
        Class::Function => fits_function(token),
        Class::NameTest => fits_name(token) || fits_wild(token),
        Class::Target => fits_word(token) || matches!(token, Token::Quoted(_)),
        Class::NameOrStar => fits_name(token) || fits_key(Key::Star, token),
        Class::StartTagOpen => matches!(token, Token::StartTagOpen(_, _)),
        Class::ChildTagOpen => matches!(token, Token::ChildTagOpen(_, _)),
        Class::EndTag => matches!(token, Token::EndTag(_, _)),
        Class::Attribute => matches!(token, Token::Attribute(_, _)),
        Class::AttributeEnd => matches!(token, Token::AttributeEnd),
        Class::TagEnd => matches!(token, Token::TagEnd),
        Class::EmptyEnd => matches!(token, Token::EmptyEnd),
        Class::Chars => matches!(token, Token::Chars(_, _)),
        Class::EnclosedOpen => matches!(token, Token::EnclosedOpen),
    }
}

fn is_step_mark(token: &Token) -> bool
    ensures { result ≡ fits_any (dollar ∷ open_paren ∷ dot ∷ dots ∷ at_sign ∷ []) token.now }
{
    match token {
        Token::Key(key) => match key {
            Key::Dollar | Key::OpenParen | Key::Dot | Key::Dots | Key::AtSign => true,
            _ => false,
        },
        _ => false,
    }
}

/// Whether the token can begin a step.
pub fn begins_step(token: &Token) -> bool
    ensures { result ≡ begins_step token.now }
{
    fits_name(token)
        || (fits_wild(token)
            || (fits_digits(token)
                || (fits(Class::Quoted, token)
                    || (is_step_mark(token) || fits(Class::StartTagOpen, token)))))
}

fn is_after_root(nonterminal: Nonterminal) -> bool
    ensures { result ≡ is_after_root nonterminal }
{
    match nonterminal {
        Nonterminal::AfterRoot => true,
        _ => false,
    }
}

/// Whether the token begins the nonterminal, which stands wherever it can: steps after the root, or
/// else a mark.
pub fn begins(nonterminal: Nonterminal, token: &Token) -> bool
    ensures { result ≡ begins nonterminal token.now }
{
    if is_after_root(nonterminal) {
        begins_step(token)
    } else {
        fits(Class::Mark, token)
    }
}
