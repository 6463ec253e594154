//! Runs a stylesheet.
//!
//! It takes a stylesheet of the first form (`sheet_reader::is_first_sheet`), a document and how many rules may be open at
//! once, and gives the result tree. It refuses with XTLM0002 a result of more than 2,000 levels or 2^63-1 nodes, and
//! with `Deep` a run that would open more rules.
//!
//! Example: the stylesheet without templates on `<a>x<b>y</b></a>` gives the document whose one child is the text `xy`.
#![tactic(auto)]

mod contents;
mod rules;
mod runs;

pub use eval_scopes::EvalFault;
pub use runs::run_first_sheet;
