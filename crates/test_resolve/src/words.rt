// Tokens of a text whose tokens stand apart by a space.
use expr_terms::{Key, Token, key_text};
use std::alloc::AllocGlobal;
use std::process::Abort;
use xt_names::Text;

const KEYS: &[Key] = &[
    Key::OpenParen,
    Key::CloseParen,
    Key::OpenBracket,
    Key::CloseBracket,
    Key::OpenBrace,
    Key::CloseBrace,
    Key::Comma,
    Key::Dot,
    Key::Dots,
    Key::Slash,
    Key::Slashes,
    Key::AtSign,
    Key::Colons,
    Key::Bar,
    Key::Plus,
    Key::Minus,
    Key::Star,
    Key::Equal,
    Key::NotEqual,
    Key::Less,
    Key::LessEqual,
    Key::Greater,
    Key::GreaterEqual,
    Key::Before,
    Key::After,
    Key::Dollar,
    Key::Question,
    Key::Semicolon,
    Key::Assign,
    Key::IfWord,
    Key::ThenWord,
    Key::ElseWord,
    Key::ForWord,
    Key::InWord,
    Key::ReturnWord,
    Key::SomeWord,
    Key::EveryWord,
    Key::SatisfiesWord,
    Key::LetWord,
    Key::AtWord,
    Key::WhereWord,
    Key::OrderWord,
    Key::ByWord,
    Key::StableWord,
    Key::AscendingWord,
    Key::DescendingWord,
    Key::EmptyWord,
    Key::LeastWord,
    Key::AsWord,
    Key::OfWord,
    Key::InstanceWord,
    Key::TreatWord,
    Key::CastableWord,
    Key::CastWord,
    Key::ToWord,
    Key::UnionWord,
    Key::IntersectWord,
    Key::ExceptWord,
    Key::IdivWord,
    Key::ModWord,
    Key::AndWord,
    Key::OrWord,
    Key::IsWord,
    Key::EqWord,
    Key::NeWord,
    Key::LtWord,
    Key::LeWord,
    Key::GtWord,
    Key::GeWord,
    Key::DocumentWord,
    Key::AncestorWord,
    Key::AncestorOrSelfWord,
    Key::ChildWord,
    Key::DescendantWord,
    Key::DescendantOrSelfWord,
    Key::FollowingWord,
    Key::FollowingSiblingWord,
    Key::NamespaceWord,
    Key::ParentWord,
    Key::PrecedingWord,
    Key::PrecedingSiblingWord,
    Key::SelfWord,
    Key::AttributeWord,
    Key::CommentWord,
    Key::DocumentNodeWord,
    Key::ElementWord,
    Key::EmptySequenceWord,
    Key::ItemWord,
    Key::NodeWord,
    Key::ProcessingInstructionWord,
    Key::SchemaAttributeWord,
    Key::SchemaElementWord,
    Key::TextWord,
    Key::TypeswitchWord,
];

fn text(rt: &(impl Abort + AllocGlobal), s: &str) -> Text {
    Text::make(rt.alloc(), s).expect(rt, "memory")
}

fn key_of(word: &str) -> Option<Key> {
    for key in KEYS {
        if key_text(*key) == word {
            return Some(*key);
        }
    }
    None
}

// `p:a` and its kin.
fn name_of(rt: &(impl Abort + AllocGlobal), word: &str) -> Option<Token> {
    match word.split_once(":") {
        None => None,
        Some(("*", local)) => Some(Token::AnyPrefix(text(rt, local))),
        Some((prefix, "*")) => Some(Token::AnyLocal(text(rt, prefix))),
        Some((prefix, local)) => Some(Token::Qname(text(rt, prefix), text(rt, local))),
    }
}

// A tag, an attribute or an end tag: `#<a`, `#<<a`, `#b=`, `#</a`, of which a name may have a prefix.
fn tag_of(rt: &(impl Abort + AllocGlobal), word: &str) -> Option<Token> {
    if let Some(name) = word.strip_prefix("#</") {
        let (prefix, local) = parts_of(name);
        return Some(Token::EndTag(text(rt, prefix), text(rt, local)));
    }
    if let Some(name) = word.strip_prefix("#<<") {
        let (prefix, local) = parts_of(name);
        return Some(Token::ChildTagOpen(text(rt, prefix), text(rt, local)));
    }
    if let Some(name) = word.strip_prefix("#<") {
        let (prefix, local) = parts_of(name);
        return Some(Token::StartTagOpen(text(rt, prefix), text(rt, local)));
    }
    if let Some(name) = word.strip_prefix("#=") {
        let (prefix, local) = parts_of(name);
        return Some(Token::Attribute(text(rt, prefix), text(rt, local)));
    }
    None
}

fn parts_of(name: &str) -> (&str, &str) {
    match name.split_once(":") {
        None => ("", name),
        Some(parts) => parts,
    }
}

// Other pieces: `#t` is a character, `#_` a literal space, `#&` a space by a reference.
fn piece_of(rt: &(impl Abort + AllocGlobal), word: &str) -> Option<Token> {
    match word {
        "#q" => Some(Token::AttributeEnd),
        "#>" => Some(Token::TagEnd),
        "#/>" => Some(Token::EmptyEnd),
        "#{" => Some(Token::EnclosedOpen),
        "#t" => Some(Token::Chars(text(rt, "t"), true)),
        "#_" => Some(Token::Chars(text(rt, " "), true)),
        "#&" => Some(Token::Chars(text(rt, " "), false)),
        _ => tag_of(rt, word),
    }
}

// An integer of one digit, or a literal between apostrophes.
fn literal_of(rt: &(impl Abort + AllocGlobal), word: &str) -> Option<Token> {
    match word.as_bytes() {
        [digit @ b'0'..=b'9'] => Some(Token::Digits((*digit - b'0') as i64)),
        [b'\'', ..] => Some(Token::Quoted(text(rt, "s"))),
        _ => None,
    }
}

fn token_of(rt: &(impl Abort + AllocGlobal), word: &str) -> Token {
    if let Some(key) = key_of(word) {
        return Token::Key(key);
    }
    if let Some(piece) = piece_of(rt, word) {
        return piece;
    }
    if let Some(literal) = literal_of(rt, word) {
        return literal;
    }
    if let Some(name) = name_of(rt, word) {
        return name;
    }
    Token::Name(text(rt, word))
}

pub(crate) fn tokens_of(rt: &(impl Abort + AllocGlobal), words: &str) -> Vec<Token> {
    let mut tokens = Vec::new(rt.alloc());
    for word in words.split_whitespace() {
        tokens.push(token_of(rt, word)).expect(rt, "memory");
    }
    tokens
}
