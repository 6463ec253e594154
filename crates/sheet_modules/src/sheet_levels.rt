//! The levels of a stylesheet, as pieces of its modules (XSLT 2.0, 3.10.3). Types alone.
//!
//! A level is a module with those that it includes. Its declarations stand in pieces of these
//! modules: an included module is in its place in the module that includes it.
//!
//! Example: a module whose third child includes another one is a level of three pieces: the first two
//! children, all of the included module, and the rest.

mod levels;

pub use levels::{SheetLevel, Span};
