// What is read.
use expr_terms::Raw;

/// What tokens are read as.
#[derive(Drop)]
pub enum Reading {
    /// The value that they spell.
    Value(Raw),
    /// They spell nothing.
    Nothing,
    /// What they spell nests deeper than the limit.
    TooDeep,
}
