//! What the attributes of a stylesheet mean that are neither expressions nor patterns: names, lists
//! of modes, priorities, name tests, choices of two words, and the parts of attribute value
//! templates (XSLT 2.0, 3.6, 5.1, 5.6, 6.4 and 6.5).
//!
//! Each call that reads a value gives it exactly where no rule is broken, and else the code of the
//! first broken rule. White space parts the words of lists and goes nowhere else. A name without a
//! prefix has no uri.
//!
//! Example: where `p` is bound to `urn:p`, the list of modes `p:a #default` has the name `a` of
//! `urn:p` and the default mode, and `q:a` breaks XTSE0280; the priority `-1.5` is -1500
//! thousandths; and `a{{{$x}` has the parts `a{` and the expression `$x`.
#![tactic(auto, using(expr_names::proofs::Follow::fault_first, expr_names::proofs::Follow::fault_next))]

mod characters;
mod choices;
mod faults;
mod modes;
mod names;
mod priorities;
pub mod sheet_texts;
mod template_laws;
mod templates;
mod tests_of_elements;
mod within;

pub use choices::{choice, yes_or_no};
pub use faults::sheet_fault;
pub use modes::{ModeChoice, Modes, default_mode, mode_choice, mode_list};
pub use names::{declared_name, function_name, is_reserved, qname, written_name};
pub use priorities::priority;
pub use query_options::expr_rules;
pub use template_laws::templates_are_read;
pub use templates::{Piece, template_pieces};
pub use tests_of_elements::name_tests;
