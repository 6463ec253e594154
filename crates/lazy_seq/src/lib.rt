//! Sequences of items that are walked on demand (XPath 2.0, 2).
//!
//! A `Seq` stands for a list of items. It is made of a list, of a range of integers, of a cursor
//! along an axis, of what predicates keep of its nodes, or of other sequences one after another,
//! and no item is made before it is asked for: a range is never counted out, and `first` and
//! `is_empty` on a cursor take, on the counter that they are handed, no more steps than lead to the
//! first hit.
//! After want of memory in `first`, `next`, `is_empty`, `len` or `at` the sequence stands for the
//! same list as before.
//!
//! Contracts see its moves: a whole walk takes as many steps as there are moves, and a
//! concatenation has the moves of its parts one after another.
//!
//! Example: `Seq::of_range(1, 9223372036854775807)` takes no memory, its `at(3)` is the integer 3,
//! and its `len()` is 9223372036854775807.
#![tactic(auto)]

mod integers;
mod leaves;
mod orders;
mod parts;
mod seqs;
mod shares;
mod stacks;
mod stocks;

pub use seqs::Seq;
