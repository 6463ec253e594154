use crate::exprs::Expr;
use xt_names::{Binding, ExprName, List, Text};
use xt_types::{SeqType, SpaceRule};

/// A query (XQuery 1.0, 4). Its prefixes are resolved.
#[derive(Drop)]
pub struct Query {
    /// The namespaces that it declares, in order, without the defaults.
    pub prefixes: List<Binding>,
    /// The default uri of elements, or the empty text; a computed element name that is a text without prefix takes it.
    pub element_default: Text,
    pub variables: List<QueryVar>,
    pub functions: List<QueryFunction>,
    pub body: Expr,
    /// Of which elements white space is stripped: the first rule whose test passes a name decides.
    pub space: List<SpaceRule>,
    /// Whether the XML declaration is left out of the output.
    pub omit: bool,
}

/// A global variable (XQuery 1.0, 4.14).
#[derive(Drop)]
pub struct QueryVar {
    pub name: ExprName,
    pub kind: Option<SeqType>,
    /// Its initialiser; None where it is external.
    pub value: Option<Expr>,
}

/// A function (XQuery 1.0, 4.15).
#[derive(Drop)]
pub struct QueryFunction {
    pub name: ExprName,
    pub params: List<QueryParam>,
    pub kind: Option<SeqType>,
    pub body: Expr,
}

/// A parameter of a function (XQuery 1.0, 4.15).
#[derive(Drop)]
pub struct QueryParam {
    pub name: ExprName,
    pub kind: Option<SeqType>,
}
