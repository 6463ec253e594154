//! Operators, lists, calls and paths on drafts (XPath 2.0, 3.1.4 to 3.7 and 3.10).
//!
//! Each call puts just the tokens of one form before those of the draft; its parts are put as the
//! expressions that they are, with the places where they stand. Nothing is put where a name has no
//! token.
//!
//! Example: where a factor is wanted, the product of `1 + 2` and `3` is put as the part `1 + 2`, `*`
//! and the part `3`.

mod lists;
mod operators;
mod paths;

pub use lists::{push_list, push_many};
pub use operators::{
    push_arithmetic, push_cast, push_castable, push_chained, push_comparison, push_instance,
    push_range, push_signed, push_treat,
};
pub use paths::{push_call, push_filter, push_root, push_slash, push_step};
