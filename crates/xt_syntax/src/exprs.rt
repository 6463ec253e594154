// Expressions, and the parts that hold expressions again.
use xt_names::{ArithOp, AtomType, CompareOp, ExprName, List, Name, Shared, Text};
use xt_types::{Axis, SeqType, Test};

/// An expression (XPath 2.0, 3; XQuery 1.0, 3). Its prefixes are resolved.
#[derive(Drop)]
#[cycle(ast)]
pub enum Expr {
    /// An integer literal.
    Int(i64),
    /// A string literal.
    Str(Text),
    /// `$v`.
    Var(ExprName),
    /// `.`: the context item.
    Context,
    /// `/`: the root of the tree of the context node.
    Root,
    /// `a, b, ..`; without items it is `()`.
    Comma(Shared<List<Expr>>),
    /// `a or b or ..`.
    Or(Shared<List<Expr>>),
    /// `a and b and ..`.
    And(Shared<List<Expr>>),
    /// `if (a) then b else if (c) then d .. else e`.
    If(Shared<List<Arm>>, Shared<Expr>),
    /// `for`, `let`, `where`, `order by`, `return`.
    Flwor(Flwor),
    /// `some`, or `every` where it is true; the bindings, and the test after `satisfies`.
    Quant(bool, Shared<List<Bind>>, Shared<Expr>),
    /// `=` `!=` `<` `<=` `>` `>=`.
    General(CompareOp, Shared<Expr>, Shared<Expr>),
    /// `eq` `ne` `lt` `le` `gt` `ge`.
    Value(CompareOp, Shared<Expr>, Shared<Expr>),
    /// `a is b`.
    Is(Shared<Expr>, Shared<Expr>),
    /// `a << b`.
    Before(Shared<Expr>, Shared<Expr>),
    /// `a >> b`.
    After(Shared<Expr>, Shared<Expr>),
    /// `a to b`.
    Range(Shared<Expr>, Shared<Expr>),
    /// `+` `-` `*` `idiv` `mod`.
    Arith(ArithOp, Shared<Expr>, Shared<Expr>),
    /// `-a`.
    Minus(Shared<Expr>),
    /// `+a`.
    Plus(Shared<Expr>),
    /// `a union b`.
    Union(Shared<Expr>, Shared<Expr>),
    /// `a intersect b`.
    Intersect(Shared<Expr>, Shared<Expr>),
    /// `a except b`.
    Except(Shared<Expr>, Shared<Expr>),
    /// `a instance of T`.
    InstanceOf(Shared<Expr>, SeqType),
    /// `a treat as T`.
    Treat(Shared<Expr>, SeqType),
    /// `a castable as T`, or `T?` where it is true.
    Castable(Shared<Expr>, AtomType, bool),
    /// `a cast as T`, or `T?` where it is true.
    Cast(Shared<Expr>, AtomType, bool),
    /// `a/b`.
    Slash(Shared<Expr>, Shared<Expr>),
    /// `axis::test[p]..`.
    Step(Axis, Test, Shared<List<Expr>>),
    /// `a[p]..`, where `a` is no step.
    Filter(Shared<Expr>, Shared<List<Expr>>),
    /// `f(a, b, ..)`.
    Call(ExprName, Shared<List<Expr>>),
    /// `element n { a }`.
    ElemC(NameSource, Shared<Expr>),
    /// `attribute n { a }`.
    AttrC(NameSource, Shared<Expr>),
    /// `document { a }`.
    DocC(Shared<Expr>),
    /// `text { a }`.
    TextC(Shared<Expr>),
    /// `comment { a }`.
    CommentC(Shared<Expr>),
    /// `processing-instruction n { a }`.
    PiC(NameSource, Shared<Expr>),
    /// `<n a="..">..</n>`.
    Direct(Name, Shared<List<DirectAttr>>, Shared<List<Part>>),
}

/// `if (test) then ..`, one of the arms of an `if`.
#[derive(Drop)]
#[cycle(ast)]
pub struct Arm {
    pub test: Shared<Expr>,
    pub then: Shared<Expr>,
}

/// `$v as T in a`, or the same with `:=`.
#[derive(Drop)]
#[cycle(ast)]
pub struct Bind {
    pub var: ExprName,
    pub kind: Option<SeqType>,
    pub source: Shared<Expr>,
}

/// A `for .. return`, with all that may be in it (XQuery 1.0, 3.8).
#[derive(Drop)]
#[cycle(ast)]
pub struct Flwor {
    pub clauses: Shared<List<Clause>>,
    /// After `where`.
    pub test: Option<Shared<Expr>>,
    pub orders: Shared<List<Order>>,
    /// Whether it is `stable order by`.
    pub stable: bool,
    pub body: Shared<Expr>,
}

/// A clause that binds (XQuery 1.0, 3.8.1).
#[derive(Drop)]
#[cycle(ast)]
pub enum Clause {
    /// `for`, with the variable after `at`, if there is one.
    For(Bind, Option<ExprName>),
    /// `let`.
    Let(Bind),
}

/// A key after `order by` (XQuery 1.0, 3.8.3).
#[derive(Drop)]
#[cycle(ast)]
pub struct Order {
    pub key: Shared<Expr>,
    pub descending: bool,
}

/// The name that a computed constructor gives (XQuery 1.0, 3.7.3).
#[derive(Drop)]
#[cycle(ast)]
pub enum NameSource {
    Fixed(Name),
    Computed(Shared<Expr>),
}

/// An attribute of a direct element (XQuery 1.0, 3.7.1.1).
#[derive(Drop)]
#[cycle(ast)]
pub struct DirectAttr {
    pub name: Name,
    pub parts: Shared<List<Part>>,
}

/// A part of a direct element's content, or of its attribute's value (XQuery 1.0, 3.7.1.3).
#[derive(Drop)]
#[cycle(ast)]
pub enum Part {
    /// Characters, with their references resolved.
    Chars(Text),
    /// `{ a }`.
    Enclosed(Shared<Expr>),
    /// A direct element within the element.
    Child(Shared<Expr>),
}
