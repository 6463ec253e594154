// The productions: the one table of the grammar.
ghost use Rattle.std.specs.Prelude.{◌≡◌};
ghost use Rattle.expr_terms.specs.Productions.{body, speaks, of_queries, keeps, passes};

use crate::levels::{chain_body, operation};
use expr_keys::{Class, Key, Language, Level, Nonterminal, Production, Symbol};

/// The parts of the production.
pub fn body(production: Production) -> &'static [Symbol]
    ensures { result.now ≡ body production }
{
    match production {
        Production::WholeExpr => &[Symbol::One(Nonterminal::Expr)],
        Production::WholeSequenceType => &[Symbol::One(Nonterminal::SequenceType)],
        Production::ExprList => &[
            Symbol::One(Nonterminal::ExprSingle),
            Symbol::Many(Nonterminal::CommaExprSingle),
        ],
        Production::NextExprSingle => &[
            Symbol::Tok(Class::Key(Key::Comma)),
            Symbol::One(Nonterminal::ExprSingle),
        ],
        Production::ArgumentList => &[
            Symbol::One(Nonterminal::ExprSingle),
            Symbol::Many(Nonterminal::CommaExprSingle),
        ],
        Production::IfExpr => &[
            Symbol::Tok(Class::Key(Key::IfWord)),
            Symbol::Tok(Class::Key(Key::OpenParen)),
            Symbol::One(Nonterminal::Expr),
            Symbol::Tok(Class::Key(Key::CloseParen)),
            Symbol::Tok(Class::Key(Key::ThenWord)),
            Symbol::One(Nonterminal::ExprSingle),
            Symbol::One(Nonterminal::ElsePart),
        ],
        Production::ElseExpr => &[
            Symbol::Tok(Class::Key(Key::ElseWord)),
            Symbol::One(Nonterminal::ExprSingle),
        ],
        Production::FlworExpr => &[
            Symbol::One(Nonterminal::Clause),
            Symbol::Many(Nonterminal::NextClause),
            Symbol::Maybe(Nonterminal::WhereClause),
            Symbol::Maybe(Nonterminal::OrderByClause),
            Symbol::Tok(Class::Key(Key::ReturnWord)),
            Symbol::One(Nonterminal::ExprSingle),
        ],
        Production::QuantifiedExpr => &[
            Symbol::Tok(Class::Quantifier),
            Symbol::One(Nonterminal::QuantifiedBinding),
            Symbol::Many(Nonterminal::CommaQuantifiedBinding),
            Symbol::Tok(Class::Key(Key::SatisfiesWord)),
            Symbol::One(Nonterminal::ExprSingle),
        ],
        Production::OperatorExpr => &[Symbol::One(Nonterminal::Level(Level::Or))],
        Production::ForClause => &[
            Symbol::Tok(Class::Key(Key::ForWord)),
            Symbol::One(Nonterminal::ForBinding),
            Symbol::Many(Nonterminal::CommaForBinding),
        ],
        Production::LetClause => &[
            Symbol::Tok(Class::Key(Key::LetWord)),
            Symbol::One(Nonterminal::LetBinding),
            Symbol::Many(Nonterminal::CommaLetBinding),
        ],
        Production::FollowingClause => &[Symbol::One(Nonterminal::Clause)],
        Production::ForIn => &[
            Symbol::Tok(Class::Key(Key::Dollar)),
            Symbol::Tok(Class::Name),
            Symbol::Maybe(Nonterminal::TypeDeclaration),
            Symbol::Maybe(Nonterminal::PositionalVar),
            Symbol::Tok(Class::Key(Key::InWord)),
            Symbol::One(Nonterminal::ExprSingle),
        ],
        Production::NextForBinding => &[
            Symbol::Tok(Class::Key(Key::Comma)),
            Symbol::One(Nonterminal::ForBinding),
        ],
        Production::LetAssign => &[
            Symbol::Tok(Class::Key(Key::Dollar)),
            Symbol::Tok(Class::Name),
            Symbol::Maybe(Nonterminal::TypeDeclaration),
            Symbol::Tok(Class::Key(Key::Assign)),
            Symbol::One(Nonterminal::ExprSingle),
        ],
        Production::NextLetBinding => &[
            Symbol::Tok(Class::Key(Key::Comma)),
            Symbol::One(Nonterminal::LetBinding),
        ],
        Production::QuantifiedIn => &[
            Symbol::Tok(Class::Key(Key::Dollar)),
            Symbol::Tok(Class::Name),
            Symbol::Maybe(Nonterminal::TypeDeclaration),
            Symbol::Tok(Class::Key(Key::InWord)),
            Symbol::One(Nonterminal::ExprSingle),
        ],
        Production::NextQuantifiedBinding => &[
            Symbol::Tok(Class::Key(Key::Comma)),
            Symbol::One(Nonterminal::QuantifiedBinding),
        ],
        Production::AsType => &[
            Symbol::Tok(Class::Key(Key::AsWord)),
            Symbol::One(Nonterminal::SequenceType),
        ],
        Production::AtVariable => &[
            Symbol::Tok(Class::Key(Key::AtWord)),
            Symbol::Tok(Class::Key(Key::Dollar)),
            Symbol::Tok(Class::Name),
        ],
        Production::WhereTest => &[
            Symbol::Tok(Class::Key(Key::WhereWord)),
            Symbol::One(Nonterminal::ExprSingle),
        ],
        Production::OrderBy => &[
            Symbol::Tok(Class::Key(Key::OrderWord)),
            Symbol::Tok(Class::Key(Key::ByWord)),
            Symbol::One(Nonterminal::OrderSpec),
            Symbol::Many(Nonterminal::CommaOrderSpec),
        ],
        Production::StableOrderBy => &[
            Symbol::Tok(Class::Key(Key::StableWord)),
            Symbol::Tok(Class::Key(Key::OrderWord)),
            Symbol::Tok(Class::Key(Key::ByWord)),
            Symbol::One(Nonterminal::OrderSpec),
            Symbol::Many(Nonterminal::CommaOrderSpec),
        ],
        Production::OrderKey => &[
            Symbol::One(Nonterminal::ExprSingle),
            Symbol::Maybe(Nonterminal::Direction),
            Symbol::Maybe(Nonterminal::EmptyPart),
        ],
        Production::NextOrderSpec => &[
            Symbol::Tok(Class::Key(Key::Comma)),
            Symbol::One(Nonterminal::OrderSpec),
        ],
        Production::OrderDirection => &[Symbol::Tok(Class::Way)],
        Production::EmptyLeast => &[
            Symbol::Tok(Class::Key(Key::EmptyWord)),
            Symbol::Tok(Class::Key(Key::LeastWord)),
        ],
        Production::OperatorChain(level) => chain_body(level),
        Production::OperatorTail(level) => operation(level),
        Production::Signed => &[
            Symbol::Tok(Class::Sign),
            Symbol::One(Nonterminal::UnaryExpr),
        ],
        Production::Unsigned => &[Symbol::One(Nonterminal::PathExpr)],
        Production::Rooted => &[
            Symbol::Tok(Class::Key(Key::Slash)),
            Symbol::Longest(Nonterminal::AfterRoot),
        ],
        Production::RootedDeep => &[
            Symbol::Tok(Class::Key(Key::Slashes)),
            Symbol::One(Nonterminal::StepExpr),
            Symbol::Many(Nonterminal::StepMore),
        ],
        Production::Unrooted => &[Symbol::One(Nonterminal::RelativePathExpr)],
        Production::RootSteps => &[
            Symbol::One(Nonterminal::StepExpr),
            Symbol::Many(Nonterminal::StepMore),
        ],
        Production::Steps => &[
            Symbol::One(Nonterminal::StepExpr),
            Symbol::Many(Nonterminal::StepMore),
        ],
        Production::StepAfter => &[
            Symbol::Tok(Class::Key(Key::Slash)),
            Symbol::One(Nonterminal::StepExpr),
        ],
        Production::DeepAfter => &[
            Symbol::Tok(Class::Key(Key::Slashes)),
            Symbol::One(Nonterminal::StepExpr),
        ],
        Production::AxisStep => &[
            Symbol::Tok(Class::Axis),
            Symbol::Tok(Class::Key(Key::Colons)),
            Symbol::One(Nonterminal::NodeTest),
            Symbol::Many(Nonterminal::Predicate),
        ],
        Production::AttributeStep => &[
            Symbol::Tok(Class::Key(Key::AtSign)),
            Symbol::One(Nonterminal::NodeTest),
            Symbol::Many(Nonterminal::Predicate),
        ],
        Production::TestStep => &[
            Symbol::One(Nonterminal::NodeTest),
            Symbol::Many(Nonterminal::Predicate),
        ],
        Production::ParentStep => &[
            Symbol::Tok(Class::Key(Key::Dots)),
            Symbol::Many(Nonterminal::Predicate),
        ],
        Production::FilterStep => &[
            Symbol::One(Nonterminal::PrimaryExpr),
            Symbol::Many(Nonterminal::Predicate),
        ],
        Production::Predicated => &[
            Symbol::Tok(Class::Key(Key::OpenBracket)),
            Symbol::One(Nonterminal::Expr),
            Symbol::Tok(Class::Key(Key::CloseBracket)),
        ],
        Production::NameTested => &[Symbol::Tok(Class::NameTest)],
        Production::KindTested => &[Symbol::One(Nonterminal::KindTest)],
        Production::PlainKind => &[
            Symbol::Tok(Class::PlainKind),
            Symbol::Tok(Class::Key(Key::OpenParen)),
            Symbol::Tok(Class::Key(Key::CloseParen)),
        ],
        Production::PiKind => &[
            Symbol::Tok(Class::Key(Key::ProcessingInstructionWord)),
            Symbol::Tok(Class::Key(Key::OpenParen)),
            Symbol::Maybe(Nonterminal::PiArgument),
            Symbol::Tok(Class::Key(Key::CloseParen)),
        ],
        Production::PiNamed => &[Symbol::Tok(Class::Target)],
        Production::NamedKind => &[
            Symbol::Tok(Class::NamedKind),
            Symbol::Tok(Class::Key(Key::OpenParen)),
            Symbol::Maybe(Nonterminal::NamedArgument),
            Symbol::Tok(Class::Key(Key::CloseParen)),
        ],
        Production::KindNamed => &[Symbol::Tok(Class::NameOrStar)],
        Production::Number => &[Symbol::Tok(Class::Digits)],
        Production::Literal => &[Symbol::Tok(Class::Quoted)],
        Production::Variable => &[
            Symbol::Tok(Class::Key(Key::Dollar)),
            Symbol::Tok(Class::Name),
        ],
        Production::Parens => &[
            Symbol::Tok(Class::Key(Key::OpenParen)),
            Symbol::Maybe(Nonterminal::Expr),
            Symbol::Tok(Class::Key(Key::CloseParen)),
        ],
        Production::Context => &[Symbol::Tok(Class::Key(Key::Dot))],
        Production::Call => &[
            Symbol::Tok(Class::Function),
            Symbol::Tok(Class::Key(Key::OpenParen)),
            Symbol::Maybe(Nonterminal::Arguments),
            Symbol::Tok(Class::Key(Key::CloseParen)),
        ],
        Production::Computed => &[
            Symbol::Tok(Class::Maker),
            Symbol::Tok(Class::Key(Key::OpenBrace)),
            Symbol::One(Nonterminal::Expr),
            Symbol::Tok(Class::Key(Key::CloseBrace)),
            Symbol::Tok(Class::Key(Key::OpenBrace)),
            Symbol::Maybe(Nonterminal::Expr),
            Symbol::Tok(Class::Key(Key::CloseBrace)),
        ],
        Production::Constructed => &[
            Symbol::Tok(Class::NamedKind),
            Symbol::Tok(Class::Name),
            Symbol::Tok(Class::Key(Key::OpenBrace)),
            Symbol::Maybe(Nonterminal::Expr),
            Symbol::Tok(Class::Key(Key::CloseBrace)),
        ],
        Production::PiConstructed => &[
            Symbol::Tok(Class::Key(Key::ProcessingInstructionWord)),
            Symbol::Tok(Class::Word),
            Symbol::Tok(Class::Key(Key::OpenBrace)),
            Symbol::Maybe(Nonterminal::Expr),
            Symbol::Tok(Class::Key(Key::CloseBrace)),
        ],
        Production::Enclosing => &[
            Symbol::Tok(Class::Encloser),
            Symbol::Tok(Class::Key(Key::OpenBrace)),
            Symbol::One(Nonterminal::Expr),
            Symbol::Tok(Class::Key(Key::CloseBrace)),
        ],
        Production::DirectConstructor => &[Symbol::One(Nonterminal::DirElemConstructor)],
        Production::EmptyType => &[
            Symbol::Tok(Class::Key(Key::EmptySequenceWord)),
            Symbol::Tok(Class::Key(Key::OpenParen)),
            Symbol::Tok(Class::Key(Key::CloseParen)),
        ],
        Production::ItemsType => &[
            Symbol::One(Nonterminal::ItemType),
            Symbol::Longest(Nonterminal::OccurrenceIndicator),
        ],
        Production::OccurrenceMark => &[Symbol::Tok(Class::Mark)],
        Production::AnyItem => &[
            Symbol::Tok(Class::Key(Key::ItemWord)),
            Symbol::Tok(Class::Key(Key::OpenParen)),
            Symbol::Tok(Class::Key(Key::CloseParen)),
        ],
        Production::KindItem => &[Symbol::One(Nonterminal::KindTest)],
        Production::AtomicItem => &[Symbol::Tok(Class::Name)],
        Production::SingleAtomicType => &[
            Symbol::Tok(Class::Name),
            Symbol::Maybe(Nonterminal::QuestionPart),
        ],
        Production::QuestionMark => &[Symbol::Tok(Class::Key(Key::Question))],
        Production::DirectElement => &[
            Symbol::Tok(Class::StartTagOpen),
            Symbol::Many(Nonterminal::DirAttribute),
            Symbol::One(Nonterminal::DirElemClosing),
        ],
        Production::ElementContent => &[
            Symbol::Tok(Class::TagEnd),
            Symbol::Many(Nonterminal::DirElemContent),
            Symbol::Tok(Class::EndTag),
        ],
        Production::EmptyElement => &[Symbol::Tok(Class::EmptyEnd)],
        Production::AttributeValue => &[
            Symbol::Tok(Class::Attribute),
            Symbol::Many(Nonterminal::AttrValueContent),
            Symbol::Tok(Class::AttributeEnd),
        ],
        Production::PartChars => &[Symbol::Tok(Class::Chars)],
        Production::PartEnclosed => &[
            Symbol::Tok(Class::EnclosedOpen),
            Symbol::One(Nonterminal::Expr),
            Symbol::Tok(Class::Key(Key::CloseBrace)),
        ],
        Production::ChildElement => &[
            Symbol::Tok(Class::ChildTagOpen),
            Symbol::Many(Nonterminal::DirAttribute),
            Symbol::One(Nonterminal::DirElemClosing),
        ],
        Production::ItemChars => &[Symbol::Tok(Class::Chars)],
        Production::ItemEnclosed => &[
            Symbol::Tok(Class::EnclosedOpen),
            Symbol::One(Nonterminal::Expr),
            Symbol::Tok(Class::Key(Key::CloseBrace)),
        ],
    }
}

/// Whether the production is of queries alone.
pub fn of_queries(production: Production) -> bool
    ensures { result ≡ of_queries production }
{
    match production {
        Production::LetClause
        | Production::FollowingClause
        | Production::AsType
        | Production::AtVariable
        | Production::WhereTest
        | Production::OrderBy
        | Production::StableOrderBy
        | Production::Computed
        | Production::Constructed
        | Production::PiConstructed
        | Production::Enclosing
        | Production::DirectConstructor => true,
        _ => false,
    }
}

/// Whether the language has the production.
pub fn speaks(language: Language, production: Production) -> bool
    ensures { result ≡ speaks language production }
{
    match language {
        Language::Xquery => true,
        Language::Xpath => !of_queries(production),
    }
}

/// Whether a token of the class tells more than its production does, and so is in the value.
pub fn keeps(class: Class) -> bool
    ensures { result ≡ keeps class }
{
    match class {
        Class::Key(_)
        | Class::AttributeEnd
        | Class::TagEnd
        | Class::EmptyEnd
        | Class::EnclosedOpen => false,
        _ => true,
    }
}

/// Whether the production adds nothing to its part, where it has one alone.
pub fn passes(production: Production) -> bool
    ensures { result ≡ passes production }
{
    match production {
        Production::WholeExpr => true,
        Production::WholeSequenceType => true,
        Production::ExprList => true,
        Production::NextExprSingle => true,
        Production::OperatorExpr => true,
        Production::FollowingClause => true,
        Production::NextForBinding => true,
        Production::NextLetBinding => true,
        Production::NextQuantifiedBinding => true,
        Production::NextOrderSpec => true,
        Production::OrderDirection => true,
        Production::OperatorChain(_) => true,
        Production::Unsigned => true,
        Production::Rooted => true,
        Production::Unrooted => true,
        Production::Steps => true,
        Production::FilterStep => true,
        Production::Predicated => true,
        Production::NameTested => true,
        Production::KindTested => true,
        Production::PiNamed => true,
        Production::KindNamed => true,
        Production::DirectConstructor => true,
        Production::ItemsType => true,
        Production::OccurrenceMark => true,
        Production::KindItem => true,
        Production::AtomicItem => true,
        Production::PartChars => true,
        Production::ItemChars => true,
        _ => false,
    }
}
