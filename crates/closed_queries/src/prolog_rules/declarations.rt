use xt_syntax::{QueryFunction, QueryVar};

/// A declaration of the second part of a prolog (XQuery 1.0, 4.14 and 4.15).
#[derive(Drop)]
pub enum Declaration {
    /// `declare variable`.
    Variable(QueryVar),
    /// `declare function`.
    Function(QueryFunction),
}
