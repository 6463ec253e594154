// Punctuation and words (XPath 2.0, A.2; XQuery 1.0, A.2).
ghost use Rattle.std.specs.Prelude.{◌≡◌};
ghost use Rattle.expr_keys.specs.Keys.{code, binding_power_of_key, is_worded, is_axis, is_reserved, same_key, key_text};

/// The punctuation, and the words that a production names. From `AncestorWord` to `AttributeWord`
/// they name axes; from `AttributeWord` on they name no function, and `IfWord` names none either.
#[derive(Clone, Copy)]
pub enum Key {
    OpenParen,
    CloseParen,
    OpenBracket,
    CloseBracket,
    OpenBrace,
    CloseBrace,
    Comma,
    Dot,
    Dots,
    Slash,
    Slashes,
    AtSign,
    Colons,
    Bar,
    Plus,
    Minus,
    Star,
    Equal,
    NotEqual,
    Less,
    LessEqual,
    Greater,
    GreaterEqual,
    Before,
    After,
    Dollar,
    Question,
    Semicolon,
    Assign,
    IfWord,
    ThenWord,
    ElseWord,
    ForWord,
    InWord,
    ReturnWord,
    SomeWord,
    EveryWord,
    SatisfiesWord,
    LetWord,
    AtWord,
    WhereWord,
    OrderWord,
    ByWord,
    StableWord,
    AscendingWord,
    DescendingWord,
    EmptyWord,
    LeastWord,
    AsWord,
    OfWord,
    InstanceWord,
    TreatWord,
    CastableWord,
    CastWord,
    ToWord,
    UnionWord,
    IntersectWord,
    ExceptWord,
    IdivWord,
    ModWord,
    AndWord,
    OrWord,
    IsWord,
    EqWord,
    NeWord,
    LtWord,
    LeWord,
    GtWord,
    GeWord,
    DocumentWord,
    AncestorWord,
    AncestorOrSelfWord,
    ChildWord,
    DescendantWord,
    DescendantOrSelfWord,
    FollowingWord,
    FollowingSiblingWord,
    NamespaceWord,
    ParentWord,
    PrecedingWord,
    PrecedingSiblingWord,
    SelfWord,
    AttributeWord,
    CommentWord,
    DocumentNodeWord,
    ElementWord,
    EmptySequenceWord,
    ItemWord,
    NodeWord,
    ProcessingInstructionWord,
    SchemaAttributeWord,
    SchemaElementWord,
    TextWord,
    TypeswitchWord,
}

/// The number of the key, in the order of the list.
pub fn code(key: Key) -> u8
    ensures { result ≡ code key }
{
    match key {
        Key::OpenParen => 0,
        Key::CloseParen => 1,
        Key::OpenBracket => 2,
        Key::CloseBracket => 3,
        Key::OpenBrace => 4,
        Key::CloseBrace => 5,
        Key::Comma => 6,
        Key::Dot => 7,
        Key::Dots => 8,
        Key::Slash => 9,
        Key::Slashes => 10,
        Key::AtSign => 11,
        Key::Colons => 12,
        Key::Bar => 13,
        Key::Plus => 14,
        Key::Minus => 15,
        Key::Star => 16,
        Key::Equal => 17,
        Key::NotEqual => 18,
        Key::Less => 19,
        Key::LessEqual => 20,
        Key::Greater => 21,
        Key::GreaterEqual => 22,
        Key::Before => 23,
        Key::After => 24,
        Key::Dollar => 25,
        Key::Question => 26,
        Key::Semicolon => 27,
        Key::Assign => 28,
        Key::IfWord => 29,
        Key::ThenWord => 30,
        Key::ElseWord => 31,
        Key::ForWord => 32,
        Key::InWord => 33,
        Key::ReturnWord => 34,
        Key::SomeWord => 35,
        Key::EveryWord => 36,
        Key::SatisfiesWord => 37,
        Key::LetWord => 38,
        Key::AtWord => 39,
        Key::WhereWord => 40,
        Key::OrderWord => 41,
        Key::ByWord => 42,
        Key::StableWord => 43,
        Key::AscendingWord => 44,
        Key::DescendingWord => 45,
        Key::EmptyWord => 46,
        Key::LeastWord => 47,
        Key::AsWord => 48,
        Key::OfWord => 49,
        Key::InstanceWord => 50,
        Key::TreatWord => 51,
        Key::CastableWord => 52,
        Key::CastWord => 53,
        Key::ToWord => 54,
        Key::UnionWord => 55,
        Key::IntersectWord => 56,
        Key::ExceptWord => 57,
        Key::IdivWord => 58,
        Key::ModWord => 59,
        Key::AndWord => 60,
        Key::OrWord => 61,
        Key::IsWord => 62,
        Key::EqWord => 63,
        Key::NeWord => 64,
        Key::LtWord => 65,
        Key::LeWord => 66,
        Key::GtWord => 67,
        Key::GeWord => 68,
        Key::DocumentWord => 69,
        Key::AncestorWord => 70,
        Key::AncestorOrSelfWord => 71,
        Key::ChildWord => 72,
        Key::DescendantWord => 73,
        Key::DescendantOrSelfWord => 74,
        Key::FollowingWord => 75,
        Key::FollowingSiblingWord => 76,
        Key::NamespaceWord => 77,
        Key::ParentWord => 78,
        Key::PrecedingWord => 79,
        Key::PrecedingSiblingWord => 80,
        Key::SelfWord => 81,
        Key::AttributeWord => 82,
        Key::CommentWord => 83,
        Key::DocumentNodeWord => 84,
        Key::ElementWord => 85,
        Key::EmptySequenceWord => 86,
        Key::ItemWord => 87,
        Key::NodeWord => 88,
        Key::ProcessingInstructionWord => 89,
        Key::SchemaAttributeWord => 90,
        Key::SchemaElementWord => 91,
        Key::TextWord => 92,
        Key::TypeswitchWord => 93,
    }
}

/// How far out the key binds after what is complete: the greater, the further. The powers 3 to 14
/// are the levels of operators, and no key of the power 0 comes after a value.
pub fn binding_power_of_key(key: Key) -> u8
    ensures { result ≡ binding_power_of_key key }
{
    match key {
        Key::OpenBracket | Key::Question => 1,
        Key::Slash | Key::Slashes => 2,
        Key::CastWord => 3,
        Key::CastableWord => 4,
        Key::TreatWord => 5,
        Key::InstanceWord => 6,
        Key::IntersectWord | Key::ExceptWord => 7,
        Key::Bar | Key::UnionWord => 8,
        Key::Star | Key::IdivWord | Key::ModWord => 9,
        Key::Plus | Key::Minus => 10,
        Key::ToWord => 11,
        Key::Equal
        | Key::NotEqual
        | Key::Less
        | Key::LessEqual
        | Key::Greater
        | Key::GreaterEqual
        | Key::Before
        | Key::After
        | Key::IsWord
        | Key::EqWord
        | Key::NeWord
        | Key::LtWord
        | Key::LeWord
        | Key::GtWord
        | Key::GeWord => 12,
        Key::AndWord => 13,
        Key::OrWord => 14,
        Key::AscendingWord | Key::DescendingWord => 15,
        Key::EmptyWord => 16,
        Key::Comma => 17,
        Key::ForWord | Key::LetWord => 18,
        Key::WhereWord => 19,
        Key::OrderWord | Key::StableWord => 20,
        Key::AsWord => 21,
        Key::AtWord => 22,
        Key::Assign
        | Key::ThenWord
        | Key::ElseWord
        | Key::InWord
        | Key::ReturnWord
        | Key::SatisfiesWord => 23,
        Key::CloseParen | Key::CloseBracket | Key::CloseBrace => 30,
        _ => 0,
    }
}

/// The key as it is written.
pub fn key_text(key: Key) -> &'static str
    ensures { result.now ≡ key_text key }
{
    match key {
        Key::OpenParen => "(",
        Key::CloseParen => ")",
        Key::OpenBracket => "[",
        Key::CloseBracket => "]",
        Key::OpenBrace => "{",
        Key::CloseBrace => "}",
        Key::Comma => ",",
        Key::Dot => ".",
        Key::Dots => "..",
        Key::Slash => "/",
        Key::Slashes => "//",
        Key::AtSign => "@",
        Key::Colons => "::",
        Key::Bar => "|",
        Key::Plus => "+",
        Key::Minus => "-",
        Key::Star => "*",
        Key::Equal => "=",
        Key::NotEqual => "!=",
        Key::Less => "<",
        Key::LessEqual => "<=",
        Key::Greater => ">",
        Key::GreaterEqual => ">=",
        Key::Before => "<<",
        Key::After => ">>",
        Key::Dollar => "$",
        Key::Question => "?",
        Key::Semicolon => ";",
        Key::Assign => ":=",
        Key::IfWord => "if",
        Key::ThenWord => "then",
        Key::ElseWord => "else",
        Key::ForWord => "for",
        Key::InWord => "in",
        Key::ReturnWord => "return",
        Key::SomeWord => "some",
        Key::EveryWord => "every",
        Key::SatisfiesWord => "satisfies",
        Key::LetWord => "let",
        Key::AtWord => "at",
        Key::WhereWord => "where",
        Key::OrderWord => "order",
        Key::ByWord => "by",
        Key::StableWord => "stable",
        Key::AscendingWord => "ascending",
        Key::DescendingWord => "descending",
        Key::EmptyWord => "empty",
        Key::LeastWord => "least",
        Key::AsWord => "as",
        Key::OfWord => "of",
        Key::InstanceWord => "instance",
        Key::TreatWord => "treat",
        Key::CastableWord => "castable",
        Key::CastWord => "cast",
        Key::ToWord => "to",
        Key::UnionWord => "union",
        Key::IntersectWord => "intersect",
        Key::ExceptWord => "except",
        Key::IdivWord => "idiv",
        Key::ModWord => "mod",
        Key::AndWord => "and",
        Key::OrWord => "or",
        Key::IsWord => "is",
        Key::EqWord => "eq",
        Key::NeWord => "ne",
        Key::LtWord => "lt",
        Key::LeWord => "le",
        Key::GtWord => "gt",
        Key::GeWord => "ge",
        Key::DocumentWord => "document",
        Key::AncestorWord => "ancestor",
        Key::AncestorOrSelfWord => "ancestor-or-self",
        Key::ChildWord => "child",
        Key::DescendantWord => "descendant",
        Key::DescendantOrSelfWord => "descendant-or-self",
        Key::FollowingWord => "following",
        Key::FollowingSiblingWord => "following-sibling",
        Key::NamespaceWord => "namespace",
        Key::ParentWord => "parent",
        Key::PrecedingWord => "preceding",
        Key::PrecedingSiblingWord => "preceding-sibling",
        Key::SelfWord => "self",
        Key::AttributeWord => "attribute",
        Key::CommentWord => "comment",
        Key::DocumentNodeWord => "document-node",
        Key::ElementWord => "element",
        Key::EmptySequenceWord => "empty-sequence",
        Key::ItemWord => "item",
        Key::NodeWord => "node",
        Key::ProcessingInstructionWord => "processing-instruction",
        Key::SchemaAttributeWord => "schema-attribute",
        Key::SchemaElementWord => "schema-element",
        Key::TextWord => "text",
        Key::TypeswitchWord => "typeswitch",
    }
}

/// Whether the key is a word.
pub fn is_worded(key: Key) -> bool
    ensures { result ≡ is_worded key }
{
    29 <= code(key)
}

/// Whether the word names an axis (XPath 2.0, 3.2.1.1).
pub fn is_axis(key: Key) -> bool
    ensures { result ≡ is_axis key }
{
    70 <= code(key) && code(key) <= 82
}

/// Whether the word names no function (XPath 2.0, A.3).
pub fn is_reserved(key: Key) -> bool
    ensures { result ≡ is_reserved key }
{
    82 <= code(key) || code(key) == 29
}

/// Whether the keys are the same.
pub fn same_key(a: Key, b: Key) -> bool
    ensures { result ≡ same_key a b }
{
    code(a) == code(b)
}
