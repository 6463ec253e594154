//! What an evaluator of expressions has at hand: the names in scope, the focus and the state of a
//! stylesheet (XPath 2.0, 2.1.2; XSLT 2.0, 5.4.3), and how it answers.
//!
//! A `Scope` is a chain of references, so that binding a variable copies nothing and leaving its
//! scope undoes nothing. `EvalFault` says why there is no value: an error by its code, no call
//! left, or want of memory. specs/Scopes.antt says what they stand for in the meaning of
//! expressions, specs/Answers.antt when an answer stands for an outcome.
//!
//! Example: in the scope of `let $x := 1 let $x := 2` the value of `$x` is 2.
#![tactic(auto)]

mod environments;
pub mod eval_values;
mod faults;
mod globals;
mod leaves;
mod scopes;

pub use environments::{Env, Fixed, Focus, Group, State, no_state};
pub use expr_meaning::{fn_lib, lazy_seq, operator_values};
pub use faults::EvalFault;
pub use globals::Globals;
pub use leaves::{
    context_item, document_of, document_root, document_value, variable, variable_list,
};
pub use scopes::{Scope, Variable, copy_variables, look_up};
pub use xdm_items;
