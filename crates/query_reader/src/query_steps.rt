//! The reading of a query, token by token (XQuery 1.0, 4).
//!
//! A `ReaderState` is how far a query is read, a `StepResult` what a token leads to. `step` leads a
//! token on,
//! and `finish` tells the body where the tokens are over. What is declared by an expression that
//! nests deeper than the limit is not kept, and the reading goes on after it.
//!
//! Example: in the value of a variable the token `1` leads on within it, and `;` after it ends the
//! declaration.

mod expressions;
mod fronts;
mod stages;
mod steps;

pub use stages::{ReaderState, StepResult};
pub use steps::{finish, step, wants};
