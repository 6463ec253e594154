//! Reads one module of a stylesheet from its tree (XSLT 2.0, 3.6 and 3.10).
//!
//! `links_of` gives the modules that it imports and includes. `module_nodes` makes the nodes of a
//! module, once; of these `read_parts` gives what it declares exactly where it breaks no rule by
//! itself, and else the code of the first one in the order of the document. Rules that need the
//! other modules are not looked at here. What texts mean is the reader's. Modes and called
//! templates have numbers, which `collect_names` gives them, for one module or for several;
//! `read_module` does all of this for one module.
//!
//! Example: `<xsl:stylesheet version="2.0"><xsl:import href="m.xsl"/><xsl:template match="a"
//! mode="m"/></xsl:stylesheet>` has one link, and two parts: the link, and a template with a rule
//! in mode 1; its modes are the default mode and `m`.
#![tactic(auto, using(expr_names::proofs::Follow::fault_first, expr_names::proofs::Follow::fault_next))]

mod in_force;
mod laws;
mod links;
mod mentions;
mod modules;

pub use laws::documents_can_be_read;
pub use links::{document_content, links_of};
pub use mentions::Mention;
pub use modules::{collect_names, module_nodes, read_module, read_parts};
