use crate::exprs::Expr;
use xt_names::List;
use xt_types::{Axis, Test};

/// A step of a pattern (XSLT 2.0, 5.5.2).
#[derive(Drop)]
pub struct PatternStep {
    /// The axis: `Child` or `Attribute`.
    pub axis: Axis,
    pub test: Test,
    /// The predicates, all of which are quiet: they fail on no node.
    pub quiet: List<Expr>,
    /// Whether `//` comes before the step.
    pub deep: bool,
}

/// One alternative of a pattern (XSLT 2.0, 5.5.2).
#[derive(Drop)]
pub struct Pattern {
    /// Whether `/` or `//` is at its front.
    pub rooted: bool,
    pub steps: List<PatternStep>,
}
