//! Which FLWOR expressions need not hold their tuples (XQuery 1.0, 3.8).
//!
//! A FLWOR expression makes all its tuples before it evaluates the first body, so that an error in a
//! later tuple comes before one in a body. Where nothing after the first `for` can fail or make
//! nodes, no one can tell whether each body is evaluated as soon as its tuple stands, and then no
//! tuple is held.
//!
//! Example: `let $a := f() for $x in g($a) return h($x)` is streamed, and so is
//! `for $x in 1 to 9, $y in 1 to 9 return $x * $y`; one with `where` or `order by` is not.

mod streams;

pub use streams::is_streamed;
