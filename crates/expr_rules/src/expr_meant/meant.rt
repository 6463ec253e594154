use expr_terms::{Key, Token};
use xt_names::{AtomType, ExprName, List, Shared};
use xt_syntax::xt_types::{SeqType, Test};
use xt_syntax::{Bind, Clause, DirectAttr, Expr, Order, Part};

/// What a part of an expression means.
#[derive(Drop)]
pub enum Meant {
    /// A token, which means what the production says that it stands in.
    Token(Token),
    /// An expression.
    Expr(Shared<Expr>),
    /// The arguments of a call.
    Arguments(Shared<List<Expr>>),
    /// A kind test.
    Kind(Test),
    /// `item()`.
    AnyItem,
    /// The type of a sequence.
    Sequence(SeqType),
    /// An atomic type, and whether the empty sequence is allowed.
    Single(AtomType, bool),
    /// An operator with the operand at its right.
    Tail(Key, Shared<Expr>),
    /// A step behind `//`.
    Deep(Shared<Expr>),
    /// A variable of `some` or `every`.
    Bind(Bind),
    /// A variable of `for` or `let`.
    Clause(Clause),
    /// All variables of one `for` or `let`.
    Clauses(Shared<List<Clause>>),
    /// The variable behind `at`.
    Place(ExprName),
    /// What stands behind `where`.
    Where(Shared<Expr>),
    /// A key of `order by`.
    Order(Order),
    /// All keys of `order by`, or of `stable order by` where it is true.
    Orders(bool, Shared<List<Order>>),
    /// An attribute of a direct element.
    Attribute(DirectAttr),
    /// A part of the content of a direct element, or of its attribute.
    Part(Part),
    /// The whole content of a direct element.
    Content(Shared<List<Part>>),
    /// A mark that tells no more than that it is there.
    Mark,
}
