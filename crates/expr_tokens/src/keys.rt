// The keys, by the first characters of their texts.
ghost use Rattle.std.specs.Prelude.{◌≡◌};
ghost use Rattle.std.specs.Str.{chars};
ghost use Rattle.expr_tokens.specs.Words.{words_by, symbols_by, key_in, key_of_word, key_of_symbol};

use expr_terms::{Key, key_text};
use xt_names::is_ascii_text;

/// The words that begin with the letter.
fn words_by(first: char) -> &'static [Key]
    ensures { result.now ≡ words_by first }
{
    if first == 'a' {
        &[
            Key::AtWord,
            Key::AscendingWord,
            Key::AsWord,
            Key::AndWord,
            Key::AncestorWord,
            Key::AncestorOrSelfWord,
            Key::AttributeWord,
        ]
    } else if first == 'b' {
        &[Key::ByWord]
    } else if first == 'c' {
        &[
            Key::CastableWord,
            Key::CastWord,
            Key::ChildWord,
            Key::CommentWord,
        ]
    } else if first == 'd' {
        &[
            Key::DescendingWord,
            Key::DocumentWord,
            Key::DescendantWord,
            Key::DescendantOrSelfWord,
            Key::DocumentNodeWord,
        ]
    } else if first == 'e' {
        &[
            Key::ElseWord,
            Key::EveryWord,
            Key::EmptyWord,
            Key::ExceptWord,
            Key::EqWord,
            Key::ElementWord,
            Key::EmptySequenceWord,
        ]
    } else if first == 'f' {
        &[Key::ForWord, Key::FollowingWord, Key::FollowingSiblingWord]
    } else if first == 'g' {
        &[Key::GtWord, Key::GeWord]
    } else if first == 'i' {
        &[
            Key::IfWord,
            Key::InWord,
            Key::InstanceWord,
            Key::IntersectWord,
            Key::IdivWord,
            Key::IsWord,
            Key::ItemWord,
        ]
    } else if first == 'l' {
        &[Key::LetWord, Key::LeastWord, Key::LtWord, Key::LeWord]
    } else if first == 'm' {
        &[Key::ModWord]
    } else if first == 'n' {
        &[Key::NeWord, Key::NamespaceWord, Key::NodeWord]
    } else if first == 'o' {
        &[Key::OrderWord, Key::OfWord, Key::OrWord]
    } else if first == 'p' {
        &[
            Key::ParentWord,
            Key::PrecedingWord,
            Key::PrecedingSiblingWord,
            Key::ProcessingInstructionWord,
        ]
    } else if first == 'r' {
        &[Key::ReturnWord]
    } else if first == 's' {
        &[
            Key::SomeWord,
            Key::SatisfiesWord,
            Key::StableWord,
            Key::SelfWord,
            Key::SchemaAttributeWord,
            Key::SchemaElementWord,
        ]
    } else if first == 't' {
        &[
            Key::ThenWord,
            Key::TreatWord,
            Key::ToWord,
            Key::TextWord,
            Key::TypeswitchWord,
        ]
    } else if first == 'u' {
        &[Key::UnionWord]
    } else if first == 'w' {
        &[Key::WhereWord]
    } else {
        &[]
    }
}

/// The punctuation that begins with the character.
fn symbols_by(first: char) -> &'static [Key]
    ensures { result.now ≡ symbols_by first }
{
    if first == '!' {
        &[Key::NotEqual]
    } else if first == '$' {
        &[Key::Dollar]
    } else if first == '(' {
        &[Key::OpenParen]
    } else if first == ')' {
        &[Key::CloseParen]
    } else if first == '*' {
        &[Key::Star]
    } else if first == '+' {
        &[Key::Plus]
    } else if first == ',' {
        &[Key::Comma]
    } else if first == '-' {
        &[Key::Minus]
    } else if first == '.' {
        &[Key::Dot, Key::Dots]
    } else if first == '/' {
        &[Key::Slash, Key::Slashes]
    } else if first == ':' {
        &[Key::Colons, Key::Assign]
    } else if first == ';' {
        &[Key::Semicolon]
    } else if first == '<' {
        &[Key::Less, Key::LessEqual, Key::Before]
    } else if first == '=' {
        &[Key::Equal]
    } else if first == '>' {
        &[Key::Greater, Key::GreaterEqual, Key::After]
    } else if first == '?' {
        &[Key::Question]
    } else if first == '@' {
        &[Key::AtSign]
    } else if first == '[' {
        &[Key::OpenBracket]
    } else if first == ']' {
        &[Key::CloseBracket]
    } else if first == '{' {
        &[Key::OpenBrace]
    } else if first == '|' {
        &[Key::Bar]
    } else if first == '}' {
        &[Key::CloseBrace]
    } else {
        &[]
    }
}

/// The first of the keys that has this text.
#[tactic(auto, using(crate::proofs::KeyLemmas::asciis))]
fn key_in(keys: &[Key], text: &str) -> Option<Key>
    ensures { result ≡ key_in keys.now (chars text.now) }
{
    for key in keys {
        if is_ascii_text(text, key_text(*key)) {
            return Some(*key);
        }
    }
    None
}

/// The key that is written as this word; None where no production names it.
pub fn key_of_word(text: &str) -> Option<Key>
    ensures { result ≡ key_of_word (chars text.now) }
{
    match text.chars().next() {
        Some(first) => key_in(words_by(first), text),
        None => None,
    }
}

/// The key that is written as this symbol; None where no production names it.
pub fn key_of_symbol(text: &str) -> Option<Key>
    ensures { result ≡ key_of_symbol (chars text.now) }
{
    match text.chars().next() {
        Some(first) => key_in(symbols_by(first), text),
        None => None,
    }
}
