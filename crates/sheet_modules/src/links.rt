// Links to other modules.
use xt_names::Text;

/// A link to another module: `xsl:import` or `xsl:include` (XSLT 2.0, 3.10).
#[derive(Drop)]
pub struct Link {
    /// Whether it is `xsl:import`.
    pub import: bool,
    /// The file that it names, as it is written.
    pub href: Text,
    /// How many element children of the root come before it, or the greatest number where there
    /// are more.
    pub before: u32,
}
