//! What the modules of a stylesheet declare, by numbers of modes and templates that they share
//! (XSLT 2.0, 3.10).
//!
//! `all_nodes` makes the nodes of the modules, once. Of these `collect_all` numbers the modes that
//! they name and the templates that they call, and `read_all` reads what each module declares, or
//! tells the first rule that the first module breaks which breaks one by itself.
//!
//! Example: where `s.xsl` imports `a.xsl`, and `s.xsl` names the mode `m` and `a.xsl` the mode `n`,
//! the default mode has the number 0, `n` 1 and `m` 2, since what is imported comes first.
#![tactic(auto, using(expr_names::proofs::Follow::fault_first, expr_names::proofs::Follow::fault_next))]

mod laws;
mod names;
mod parts;

pub use laws::loaded_modules_can_be_read;
pub use names::{SheetNames, collect_all};
pub use parts::{all_nodes, read_all};
