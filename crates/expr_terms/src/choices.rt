// Which production the next tokens begin.
ghost use Rattle.std.specs.Prelude.{◌≡◌};
ghost use Rattle.expr_terms.specs.Choices.{second_key, second_token, open_next, second_of, with_paren, with_dollar, with_brace, with_named, starter_word, starter_mark, starter_name, starter_of, in_kinds, in_tests, in_primaries, in_direct, in_items, in_parts, in_closing, in_steps, in_paths, in_unaries, in_singles, in_clauses, in_more_steps, in_item_types, in_types, then_one, pick, is_order, choose};

use expr_keys::{Key, Nonterminal, Production, Token, fits_key, fits_name, is_worded};

/// What the tokens after a word tell of it.
#[derive(Clone, Copy)]
pub enum Second {
    /// `(` comes next.
    BeforeParen,
    /// `::` comes next.
    BeforeColons,
    /// `$` comes next.
    BeforeDollar,
    /// `{` comes next.
    BeforeBrace,
    /// A name and then `{` come next.
    BeforeNamed,
    /// None of these.
    Alone,
}

/// What a token begins where an operand must stand.
#[derive(Clone, Copy)]
pub enum Starter {
    Conditional,
    Looping,
    Letting,
    Quantifying,
    Signing,
    Slashing,
    SlashingDeep,
    Axis,
    At,
    Parent,
    PlainKind,
    PiKind,
    NamedKind,
    Named,
    Wild,
    Digits,
    Quoted,
    Variable,
    Paren,
    Context,
    Call,
    Computed,
    Constructed,
    PiConstructed,
    Enclosing,
    ItemType,
    EmptyType,
    StartTagOpen,
    ChildTagOpen,
    Chars,
    EnclosedOpen,
    FullTag,
    EmptyTag,
    Nothing,
}

fn second_key(of: Key) -> Second
    ensures { result ≡ second_key of }
{
    match of {
        Key::OpenParen => Second::BeforeParen,
        Key::Colons => Second::BeforeColons,
        Key::Dollar => Second::BeforeDollar,
        Key::OpenBrace => Second::BeforeBrace,
        _ => Second::Alone,
    }
}

fn with_paren(of: Key) -> Starter
    ensures { result ≡ with_paren of }
{
    match of {
        Key::IfWord => Starter::Conditional,
        Key::NodeWord | Key::TextWord | Key::CommentWord | Key::DocumentNodeWord =>
            Starter::PlainKind,
        Key::ProcessingInstructionWord => Starter::PiKind,
        Key::ElementWord | Key::AttributeWord => Starter::NamedKind,
        Key::ItemWord => Starter::ItemType,
        Key::EmptySequenceWord => Starter::EmptyType,
        Key::SchemaAttributeWord | Key::SchemaElementWord | Key::TypeswitchWord => Starter::Nothing,
        _ => Starter::Call,
    }
}

fn with_dollar(of: Key) -> Starter
    ensures { result ≡ with_dollar of }
{
    match of {
        Key::ForWord => Starter::Looping,
        Key::LetWord => Starter::Letting,
        Key::SomeWord | Key::EveryWord => Starter::Quantifying,
        _ => Starter::Nothing,
    }
}

fn with_brace(of: Key) -> Starter
    ensures { result ≡ with_brace of }
{
    match of {
        Key::ElementWord | Key::AttributeWord | Key::ProcessingInstructionWord => Starter::Computed,
        Key::DocumentWord | Key::TextWord | Key::CommentWord => Starter::Enclosing,
        _ => Starter::Nothing,
    }
}

fn with_named(of: Key) -> Starter
    ensures { result ≡ with_named of }
{
    match of {
        Key::ElementWord | Key::AttributeWord => Starter::Constructed,
        Key::ProcessingInstructionWord => Starter::PiConstructed,
        _ => Starter::Nothing,
    }
}

fn starter_mark(of: Key) -> Starter
    ensures { result ≡ starter_mark of }
{
    match of {
        Key::Dollar => Starter::Variable,
        Key::OpenParen => Starter::Paren,
        Key::Dot => Starter::Context,
        Key::Dots => Starter::Parent,
        Key::AtSign => Starter::At,
        Key::Slash => Starter::Slashing,
        Key::Slashes => Starter::SlashingDeep,
        Key::Plus | Key::Minus => Starter::Signing,
        Key::Star => Starter::Wild,
        _ => Starter::Nothing,
    }
}

fn starter_name(of: Second) -> Starter
    ensures { result ≡ starter_name of }
{
    match of {
        Second::BeforeParen => Starter::Call,
        Second::BeforeColons => Starter::Axis,
        _ => Starter::Named,
    }
}

fn starter_word(key: Key, second: Second) -> Starter
    ensures { result ≡ starter_word key second }
{
    match second {
        Second::BeforeParen => with_paren(key),
        Second::BeforeColons => Starter::Axis,
        Second::BeforeDollar => with_dollar(key),
        Second::BeforeBrace => with_brace(key),
        Second::BeforeNamed => with_named(key),
        Second::Alone => Starter::Named,
    }
}

/// What the token begins.
pub fn starter_of(token: &Token, second: Second) -> Starter
    ensures { result ≡ starter_of token.now second }
{
    match token {
        Token::Key(key) => {
            if is_worded(*key) {
                starter_word(*key, second)
            } else {
                starter_mark(*key)
            }
        }
        Token::Name(_) | Token::Qname(_, _) => starter_name(second),
        Token::AnyLocal(_) | Token::AnyPrefix(_) => Starter::Wild,
        Token::Digits(_) => Starter::Digits,
        Token::Quoted(_) => Starter::Quoted,
        Token::StartTagOpen(_, _) => Starter::StartTagOpen,
        Token::ChildTagOpen(_, _) => Starter::ChildTagOpen,
        Token::Chars(_, _) => Starter::Chars,
        Token::EnclosedOpen => Starter::EnclosedOpen,
        Token::TagEnd => Starter::FullTag,
        Token::EmptyEnd => Starter::EmptyTag,
        _ => Starter::Nothing,
    }
}

fn then_one(found: Option<Production>, production: Production) -> Option<Production>
    ensures { result ≡ then_one found production }
{
    match found {
        None => None,
        Some(_) => Some(production),
    }
}

fn in_kinds(of: Starter) -> Option<Production>
    ensures { result ≡ in_kinds of }
{
    match of {
        Starter::PlainKind => Some(Production::PlainKind),
        Starter::PiKind => Some(Production::PiKind),
        Starter::NamedKind => Some(Production::NamedKind),
        _ => None,
    }
}

fn in_tests(of: Starter) -> Option<Production>
    ensures { result ≡ in_tests of }
{
    match of {
        Starter::Named | Starter::Wild => Some(Production::NameTested),
        Starter::PlainKind | Starter::PiKind | Starter::NamedKind => Some(Production::KindTested),
        _ => None,
    }
}

fn in_primaries(of: Starter) -> Option<Production>
    ensures { result ≡ in_primaries of }
{
    match of {
        Starter::Digits => Some(Production::Number),
        Starter::Quoted => Some(Production::Literal),
        Starter::Variable => Some(Production::Variable),
        Starter::Paren => Some(Production::Parens),
        Starter::Context => Some(Production::Context),
        Starter::Call => Some(Production::Call),
        Starter::Computed => Some(Production::Computed),
        Starter::Constructed => Some(Production::Constructed),
        Starter::PiConstructed => Some(Production::PiConstructed),
        Starter::Enclosing => Some(Production::Enclosing),
        Starter::StartTagOpen => Some(Production::DirectConstructor),
        _ => None,
    }
}

fn in_direct(of: Starter) -> Option<Production>
    ensures { result ≡ in_direct of }
{
    match of {
        Starter::StartTagOpen => Some(Production::DirectElement),
        _ => None,
    }
}

fn in_items(of: Starter) -> Option<Production>
    ensures { result ≡ in_items of }
{
    match of {
        Starter::ChildTagOpen => Some(Production::ChildElement),
        Starter::Chars => Some(Production::ItemChars),
        _ => Some(Production::ItemEnclosed),
    }
}

fn in_parts(of: Starter) -> Option<Production>
    ensures { result ≡ in_parts of }
{
    match of {
        Starter::Chars => Some(Production::PartChars),
        _ => Some(Production::PartEnclosed),
    }
}

fn in_closing(of: Starter) -> Option<Production>
    ensures { result ≡ in_closing of }
{
    match of {
        Starter::FullTag => Some(Production::ElementContent),
        _ => Some(Production::EmptyElement),
    }
}

fn in_steps(of: Starter) -> Option<Production>
    ensures { result ≡ in_steps of }
{
    match of {
        Starter::Axis => Some(Production::AxisStep),
        Starter::At => Some(Production::AttributeStep),
        Starter::Parent => Some(Production::ParentStep),
        Starter::Named
        | Starter::Wild
        | Starter::PlainKind
        | Starter::PiKind
        | Starter::NamedKind => Some(Production::TestStep),
        Starter::Digits
        | Starter::Quoted
        | Starter::Variable
        | Starter::Paren
        | Starter::Context
        | Starter::Call
        | Starter::Computed
        | Starter::Constructed
        | Starter::PiConstructed
        | Starter::Enclosing
        | Starter::StartTagOpen => Some(Production::FilterStep),
        _ => None,
    }
}

fn in_paths(of: Starter) -> Option<Production>
    ensures { result ≡ in_paths of }
{
    match of {
        Starter::Slashing => Some(Production::Rooted),
        Starter::SlashingDeep => Some(Production::RootedDeep),
        _ => then_one(in_steps(of), Production::Unrooted),
    }
}

fn in_unaries(of: Starter) -> Option<Production>
    ensures { result ≡ in_unaries of }
{
    match of {
        Starter::Signing => Some(Production::Signed),
        _ => then_one(in_paths(of), Production::Unsigned),
    }
}

fn in_singles(of: Starter) -> Option<Production>
    ensures { result ≡ in_singles of }
{
    match of {
        Starter::Conditional => Some(Production::IfExpr),
        Starter::Looping | Starter::Letting => Some(Production::FlworExpr),
        Starter::Quantifying => Some(Production::QuantifiedExpr),
        _ => then_one(in_unaries(of), Production::OperatorExpr),
    }
}

fn in_clauses(of: Starter) -> Option<Production>
    ensures { result ≡ in_clauses of }
{
    match of {
        Starter::Looping => Some(Production::ForClause),
        Starter::Letting => Some(Production::LetClause),
        _ => None,
    }
}

fn in_more_steps(of: Starter) -> Option<Production>
    ensures { result ≡ in_more_steps of }
{
    match of {
        Starter::Slashing => Some(Production::StepAfter),
        _ => Some(Production::DeepAfter),
    }
}

fn in_item_types(of: Starter) -> Option<Production>
    ensures { result ≡ in_item_types of }
{
    match of {
        Starter::ItemType => Some(Production::AnyItem),
        Starter::PlainKind | Starter::PiKind | Starter::NamedKind => Some(Production::KindItem),
        Starter::Named => Some(Production::AtomicItem),
        _ => None,
    }
}

fn in_types(of: Starter) -> Option<Production>
    ensures { result ≡ in_types of }
{
    match of {
        Starter::EmptyType => Some(Production::EmptyType),
        _ => then_one(in_item_types(of), Production::ItemsType),
    }
}

/// The production of the nonterminal that begins so.
pub fn pick(nonterminal: Nonterminal, of: Starter) -> Option<Production>
    ensures { result ≡ pick nonterminal of }
{
    match nonterminal {
        Nonterminal::Whole => Some(Production::WholeExpr),
        Nonterminal::WholeType => Some(Production::WholeSequenceType),
        Nonterminal::Expr => then_one(in_singles(of), Production::ExprList),
        Nonterminal::CommaExprSingle => Some(Production::NextExprSingle),
        Nonterminal::Arguments => then_one(in_singles(of), Production::ArgumentList),
        Nonterminal::ExprSingle => in_singles(of),
        Nonterminal::ElsePart => Some(Production::ElseExpr),
        Nonterminal::Clause => in_clauses(of),
        Nonterminal::NextClause => Some(Production::FollowingClause),
        Nonterminal::ForBinding => Some(Production::ForIn),
        Nonterminal::CommaForBinding => Some(Production::NextForBinding),
        Nonterminal::LetBinding => Some(Production::LetAssign),
        Nonterminal::CommaLetBinding => Some(Production::NextLetBinding),
        Nonterminal::QuantifiedBinding => Some(Production::QuantifiedIn),
        Nonterminal::CommaQuantifiedBinding => Some(Production::NextQuantifiedBinding),
        Nonterminal::TypeDeclaration => Some(Production::AsType),
        Nonterminal::PositionalVar => Some(Production::AtVariable),
        Nonterminal::WhereClause => Some(Production::WhereTest),
        Nonterminal::OrderByClause => Some(Production::OrderBy),
        Nonterminal::OrderSpec => Some(Production::OrderKey),
        Nonterminal::CommaOrderSpec => Some(Production::NextOrderSpec),
        Nonterminal::Direction => Some(Production::OrderDirection),
        Nonterminal::EmptyPart => Some(Production::EmptyLeast),
        Nonterminal::Level(level) => then_one(in_unaries(of), Production::OperatorChain(level)),
        Nonterminal::Tail(level) => Some(Production::OperatorTail(level)),
        Nonterminal::UnaryExpr => in_unaries(of),
        Nonterminal::PathExpr => in_paths(of),
        Nonterminal::AfterRoot => then_one(in_steps(of), Production::RootSteps),
        Nonterminal::RelativePathExpr => then_one(in_steps(of), Production::Steps),
        Nonterminal::StepMore => in_more_steps(of),
        Nonterminal::StepExpr => in_steps(of),
        Nonterminal::Predicate => Some(Production::Predicated),
        Nonterminal::NodeTest => in_tests(of),
        Nonterminal::KindTest => in_kinds(of),
        Nonterminal::PiArgument => Some(Production::PiNamed),
        Nonterminal::NamedArgument => Some(Production::KindNamed),
        Nonterminal::PrimaryExpr => in_primaries(of),
        Nonterminal::SequenceType => in_types(of),
        Nonterminal::ItemType => in_item_types(of),
        Nonterminal::OccurrenceIndicator => Some(Production::OccurrenceMark),
        Nonterminal::SingleType => Some(Production::SingleAtomicType),
        Nonterminal::QuestionPart => Some(Production::QuestionMark),
        Nonterminal::DirElemConstructor => in_direct(of),
        Nonterminal::DirElemClosing => in_closing(of),
        Nonterminal::DirAttribute => Some(Production::AttributeValue),
        Nonterminal::AttrValueContent => in_parts(of),
        Nonterminal::DirElemContent => in_items(of),
    }
}

fn is_order(nonterminal: Nonterminal) -> bool
    ensures { result ≡ is_order nonterminal }
{
    match nonterminal {
        Nonterminal::OrderByClause => true,
        _ => false,
    }
}

/// The production of the nonterminal that the token begins, with what follows told by `second`.
pub fn choose(nonterminal: Nonterminal, token: &Token, second: Second) -> Option<Production>
    ensures { result ≡ choose nonterminal token.now second }
{
    if is_order(nonterminal) {
        if fits_key(Key::StableWord, token) {
            Some(Production::StableOrderBy)
        } else {
            Some(Production::OrderBy)
        }
    } else {
        pick(nonterminal, starter_of(token, second))
    }
}

fn open_next(rest: &[Token]) -> bool
    ensures { result ≡ open_next rest.now }
{
    match rest {
        [] => false,
        [first, ..] => fits_key(Key::OpenBrace, first),
    }
}

fn second_token(token: &Token) -> Second
    ensures { result ≡ second_token token.now }
{
    match token {
        Token::Key(key) => second_key(*key),
        _ => Second::Alone,
    }
}

/// What the tokens tell of the word before them.
pub fn second_of(rest: &[Token]) -> Second
    ensures { result ≡ second_of rest.now }
{
    match rest.split_first() {
        None => Second::Alone,
        Some((first, others)) => {
            if fits_name(first) && open_next(others) {
                Second::BeforeNamed
            } else {
                second_token(first)
            }
        }
    }
}
