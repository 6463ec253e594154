//! What expressions of XPath mean has forms of XPath alone and nests no deeper than it is written;
//! prefixes that a closed stylesheet binds have uris that XML allows for them. Laws alone.
//!
//! The modules, lowest first:
//!
//! - `xpath_forms`: What expressions of XPath mean.
//! - `binding_laws`: Bindings of prefixes that a closed stylesheet may have where a name is
//!   computed.
#![tactic(auto)]

pub mod binding_laws;
pub mod xpath_forms;
