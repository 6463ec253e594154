//! Paths, steps, predicates and quantifiers (XPath 2.0, 3.2, 3.3.2 and 3.9).
//!
//! `ItemForm::eval_form` gives the value of such an expression at what it can read, exactly as its
//! meaning has it. What evaluates the expressions within it is handed in as two closures, one for
//! lists and one for sequences that are walked on demand. They need take no expression that has as
//! many nodes as the whole.
//!
//! Example: `(1 to 9)[. > 7]` gives the list of 8 and 9, `some $x in (1, 2) satisfies $x = 2` that
//! of true.
#![tactic(auto)]

mod forms;
mod paths;
mod predicates;
mod quantifiers;

pub use forms::ItemForm;
