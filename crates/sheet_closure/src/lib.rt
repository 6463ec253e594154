//! Which stylesheets are closed: they use nothing but what they declare, and have the form in
//! which stylesheets are loaded (XSLT 2.0, 2 and 3).
//!
//! `sheet_closed` is exact: `specs/Closed.antt` says part by part what it asks. Of these parts
//! `closed_sheets` tells whether expressions, types, texts and names are good, and
//! `standing_parts` whether expressions, patterns, variables and parameters stand where they may.
//!
//! Example: a stylesheet whose one template is `<xsl:template match="a">1</xsl:template>` is
//! closed; one whose template has `<xsl:value-of select="$x"/>`, and which declares no `x`, is
//! not.
#![tactic(auto)]

mod closed;
mod declared;
mod numbers;
pub mod standing_parts;
mod uses;

pub use closed::sheet_closed;
