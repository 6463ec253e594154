// Tokens as they stand on a page.
use crate::gaps::Gap;
use expr_terms::Token;

/// A token, and what is wanted before it where it is in an expression.
#[derive(Drop)]
pub(crate) struct Placed {
    pub(crate) token: Token,
    pub(crate) gap: Gap,
}
