//! Constructors of nodes (XQuery 1.0, 3.7).
//!
//! `Constructor::eval_direct` gives the element that a direct element makes at what it can read, and
//! `Constructor::eval_computed` the node of a computed constructor, exactly as its meaning has it.
//! What evaluates the expressions within it is handed in as a closure, which need take none that has
//! as many nodes as the whole.
//!
//! Example: `<a b="{1 + 1}"/>` gives an element `a` whose attribute `b` is `2`.
#![tactic(auto)]

mod constructors;
mod elements;
mod making;
mod naming;

pub use constructors::Constructor;
