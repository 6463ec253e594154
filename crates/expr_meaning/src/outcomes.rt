//! How computations end, one after another: definitions and laws alone, nothing runs.
//!
//! An expression, an instruction or a call ends with a value and the next number of a tree, fails
//! with a code, or needs more calls than are left. What a whole language says of outcomes, as that
//! more calls change nothing but the last, is proved for an abstract relation between outcomes,
//! form by form, and each such statement is one relation.
//!
//! Example: `and_then (Fails c) go` is `Fails c`, whatever `go` does.

mod laws;

pub use laws::{
    outcomes_are_joined_from_either_end, outcomes_with_more_calls_carry_on,
    outcomes_with_other_codes_carry_on,
};
