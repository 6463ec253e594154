//! Rules that tidy an expression without a change of its meaning: definitions and laws alone, nothing
//! runs.
//!
//! There are eight: a `let` that is not read goes, so does an arm or a part of `and` and `or` that is
//! decided, lists become flat, not() of empty() turns, boolean() goes where a truth value is asked for,
//! a `for` over one literal becomes a `let`, and a `let` of a literal or a variable is put in place.
//! Beside them an `if` that becomes the last part of an `if` joins it (`Passes`). A pass applies at each
//! place, from within, the first rule that is there; passes over a query end (`Ended`), and then no
//! rule stands (`Tidy`).
//!
//! Example: `let $a := 1 return if (true()) then $a else error()` becomes `1`.
#![tactic(auto)]

mod laws;

pub use laws::{
    a_pass_changes_nothing, copies_go, decided_arms_go, decided_parts_go, lists_are_flat,
    negated_counts_turn, no_rule_stands, passes_end, passes_keep_names_and_types,
    passes_keep_the_query, passes_nest_no_deeper, single_loops_are_lets, tests_are_bare,
    unread_variables_go,
};
