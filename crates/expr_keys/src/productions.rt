// What the tables of the grammar speak of.
use crate::keys::Key;

/// The language that is read.
#[derive(Clone, Copy)]
pub enum Language {
    Xpath,
    Xquery,
}

/// The levels of operators, from the loosest on (XPath 2.0, A.4).
#[derive(Clone, Copy)]
pub enum Level {
    /// `or`.
    Or,
    /// `and`.
    And,
    /// `=`, `eq`, `is`, `<<` and their kin.
    Comparison,
    /// `to`.
    Range,
    /// `+`, `-`.
    Additive,
    /// `*`, `idiv`, `mod`.
    Multiplicative,
    /// `union`, `|`.
    Union,
    /// `intersect`, `except`.
    Intersect,
    /// `instance of`.
    InstanceOf,
    /// `treat as`.
    Treat,
    /// `castable as`.
    Castable,
    /// `cast as`.
    Cast,
}

/// What a production is a form of.
#[derive(Clone, Copy)]
pub enum Nonterminal {
    Whole,
    WholeType,
    Expr,
    CommaExprSingle,
    Arguments,
    ExprSingle,
    ElsePart,
    Clause,
    NextClause,
    ForBinding,
    CommaForBinding,
    LetBinding,
    CommaLetBinding,
    QuantifiedBinding,
    CommaQuantifiedBinding,
    TypeDeclaration,
    PositionalVar,
    WhereClause,
    OrderByClause,
    OrderSpec,
    CommaOrderSpec,
    Direction,
    EmptyPart,
    Level(Level),
    Tail(Level),
    UnaryExpr,
    PathExpr,
    AfterRoot,
    RelativePathExpr,
    StepMore,
    StepExpr,
    Predicate,
    NodeTest,
    KindTest,
    PiArgument,
    NamedArgument,
    PrimaryExpr,
    SequenceType,
    ItemType,
    OccurrenceIndicator,
    SingleType,
    QuestionPart,
    DirElemConstructor,
    DirElemClosing,
    DirAttribute,
    AttrValueContent,
    DirElemContent,
}

/// A set of tokens.
#[derive(Clone, Copy)]
pub enum Class {
    /// This key.
    Key(Key),
    /// `+`, `-`.
    Sign,
    /// `?`, `*`, `+`.
    Mark,
    /// `ascending`, `descending`.
    Way,
    /// `some`, `every`.
    Quantifier,
    /// `node`, `text`, `comment`, `document-node`.
    PlainKind,
    /// `element`, `attribute`.
    NamedKind,
    /// `document`, `text`, `comment`.
    Encloser,
    /// `element`, `attribute`, `processing-instruction`.
    Maker,
    /// An operator of the level.
    Operator(Level),
    /// An integer literal.
    Digits,
    /// A string literal.
    Quoted,
    /// The name of an axis.
    Axis,
    /// An NCName.
    Word,
    /// A QName.
    Name,
    /// A QName that may name a function.
    Function,
    /// A QName, `*`, `p:*` or `*:n`.
    NameTest,
    /// An NCName or a string literal.
    Target,
    /// A QName or `*`.
    NameOrStar,
    StartTagOpen,
    ChildTagOpen,
    EndTag,
    Attribute,
    AttributeEnd,
    TagEnd,
    EmptyEnd,
    Chars,
    EnclosedOpen,
}

/// A part of a production.
#[derive(Clone, Copy)]
pub enum Symbol {
    /// A token of the class.
    Tok(Class),
    One(Nonterminal),
    /// None or one.
    Maybe(Nonterminal),
    /// Any number.
    Many(Nonterminal),
    /// One where the next token can begin it, and none elsewhere.
    Longest(Nonterminal),
}

/// A production (XPath 2.0, A.1; XQuery 1.0, A.1). One without a text goes with the one before it.
#[derive(Clone, Copy)]
pub enum Production {
    /// Whole = Expr
    WholeExpr,
    /// WholeType = SequenceType
    WholeSequenceType,
    /// Expr = ExprSingle ("," ExprSingle)*
    ExprList,
    NextExprSingle,
    /// Arguments = ExprSingle ("," ExprSingle)*
    ArgumentList,
    /// ExprSingle = "if" "(" Expr ")" "then" ExprSingle ElsePart
    IfExpr,
    /// ElsePart = "else" ExprSingle
    ElseExpr,
    /// ExprSingle = Clause Clause* WhereClause? OrderByClause? "return" ExprSingle
    FlworExpr,
    /// ExprSingle = ("some" | "every") QuantifiedBinding ("," QuantifiedBinding)* "satisfies"
    ///     ExprSingle
    QuantifiedExpr,
    /// ExprSingle = Level or
    OperatorExpr,
    /// Clause = "for" ForBinding ("," ForBinding)*
    ForClause,
    /// Clause = "let" LetBinding ("," LetBinding)*
    LetClause,
    FollowingClause,
    /// ForBinding = "$" Name TypeDeclaration? PositionalVar? "in" ExprSingle
    ForIn,
    NextForBinding,
    /// LetBinding = "$" Name TypeDeclaration? ":=" ExprSingle
    LetAssign,
    NextLetBinding,
    /// QuantifiedBinding = "$" Name TypeDeclaration? "in" ExprSingle
    QuantifiedIn,
    NextQuantifiedBinding,
    /// TypeDeclaration = "as" SequenceType
    AsType,
    /// PositionalVar = "at" "$" Name
    AtVariable,
    /// WhereClause = "where" ExprSingle
    WhereTest,
    /// OrderByClause = "stable"? "order" "by" OrderSpec ("," OrderSpec)*
    OrderBy,
    StableOrderBy,
    /// OrderSpec = ExprSingle ("ascending" | "descending")? ("empty" "least")?
    OrderKey,
    NextOrderSpec,
    OrderDirection,
    EmptyLeast,
    /// Level l = Level (l + 1) (Tail l)*, or (Tail l)? where one operator of the level may stand
    OperatorChain(Level),
    /// Tail l = an operator of the level and Level (l + 1), or its words and a type
    OperatorTail(Level),
    /// UnaryExpr = ("+" | "-") UnaryExpr | PathExpr
    Signed,
    Unsigned,
    /// PathExpr = "/" AfterRoot? | "//" StepExpr (("/" | "//") StepExpr)* | RelativePathExpr
    Rooted,
    RootedDeep,
    Unrooted,
    /// AfterRoot = StepExpr (("/" | "//") StepExpr)*; it stands wherever the next token begins one
    RootSteps,
    /// RelativePathExpr = StepExpr (("/" | "//") StepExpr)*
    Steps,
    StepAfter,
    DeepAfter,
    /// StepExpr = (Axis "::" NodeTest | "@" NodeTest | NodeTest | ".." | PrimaryExpr) Predicate*
    AxisStep,
    AttributeStep,
    TestStep,
    ParentStep,
    FilterStep,
    /// Predicate = "[" Expr "]"
    Predicated,
    /// NodeTest = QName | "*" | p:* | *:n | KindTest
    NameTested,
    KindTested,
    /// KindTest = ("node" | "text" | "comment" | "document-node") "(" ")"
    PlainKind,
    /// KindTest = "processing-instruction" "(" (NCName | Literal)? ")"
    PiKind,
    PiNamed,
    /// KindTest = ("element" | "attribute") "(" (QName | "*")? ")"
    NamedKind,
    KindNamed,
    /// PrimaryExpr = Integer | Literal | "$" Name | "(" Expr? ")" | "." | Name "(" Arguments? ")"
    Number,
    Literal,
    Variable,
    Parens,
    Context,
    Call,
    /// PrimaryExpr = ("element" | "attribute" | "processing-instruction") "{" Expr "}" "{" Expr?
    ///     "}"
    Computed,
    /// PrimaryExpr = ("element" | "attribute") QName "{" Expr? "}"
    Constructed,
    /// PrimaryExpr = "processing-instruction" NCName "{" Expr? "}"
    PiConstructed,
    /// PrimaryExpr = ("document" | "text" | "comment") "{" Expr "}"
    Enclosing,
    /// PrimaryExpr = DirElemConstructor
    DirectConstructor,
    /// SequenceType = "empty-sequence" "(" ")" | ItemType OccurrenceIndicator?, where a mark that
    ///     can follow does
    EmptyType,
    ItemsType,
    /// OccurrenceIndicator = "?" | "*" | "+"
    OccurrenceMark,
    /// ItemType = "item" "(" ")" | KindTest | AtomicName
    AnyItem,
    KindItem,
    AtomicItem,
    /// SingleType = AtomicName "?"?
    SingleAtomicType,
    QuestionMark,
    /// DirElemConstructor = "<n" DirAttribute* DirElemClosing
    DirectElement,
    /// DirElemClosing = ">" DirElemContent* "</n>" | "/>"
    ElementContent,
    EmptyElement,
    /// DirAttribute = n=" AttrValueContent* ", AttrValueContent = Chars | "{" Expr "}"
    AttributeValue,
    PartChars,
    PartEnclosed,
    /// DirElemContent = "<n" DirAttribute* DirElemClosing | Chars | "{" Expr "}"
    ChildElement,
    ItemChars,
    ItemEnclosed,
}
