// Pieces of modules, and the levels that they make up.
use xt_names::List;

/// A piece of a module: the children of its root from one place on, and before another.
#[derive(Clone, Copy, PartialEq, Eq, Debug)]
pub struct Span {
    /// The place of the module in the order of loading, from 0.
    pub place: usize,
    /// Of the element children of the root, from 0, the first one.
    pub from: u32,
    /// The first one after it; None where it goes to the end.
    pub to: Option<u32>,
}

/// A stylesheet level: a module with those that it includes (XSLT 2.0, 3.10.3).
#[derive(Drop)]
pub struct SheetLevel {
    /// The levels that are imported into this one are those from this precedence up to its own,
    /// without it; precedence counts from 1.
    pub first: usize,
    /// Its pieces in declaration order.
    pub spans: List<Span>,
}
