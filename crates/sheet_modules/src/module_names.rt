//! The files that the links of a stylesheet name (XSLT 2.0, 3.10).
//!
//! A link names a file by an href, which is put after the folder of the module in which it stands:
//! what that module's own name has up to and with its last slash. An href that begins with a slash
//! is the whole name.
//!
//! Example: in `sheets/main.xsl` the href `parts/a.xsl` leads to `sheets/parts/a.xsl`, and
//! `/a.xsl` to `/a.xsl`; in `main.xsl` the href `a.xsl` leads to `a.xsl`.

mod laws;
mod names;

pub use laws::names_stand_beside_the_importer;
pub use names::resolve;
