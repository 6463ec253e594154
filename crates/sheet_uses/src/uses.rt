// What is used.
use xt_names::{ExprName, List, Text};
use xt_sheets::ModeUse;

/// Something declared elsewhere that an expression or an instruction uses.
#[derive(Drop)]
pub enum Use {
    /// A variable (XPath 2.0, 3.1.2).
    Variable(ExprName),
    /// A call of a function with so many arguments (XPath 2.0, 3.1.5), and its first argument where
    /// that is a literal text.
    Call(ExprName, usize, Option<Text>),
    /// A call of the template with this number (XSLT 2.0, 10.1), and the names of the ordinary
    /// parameters that are passed.
    Template(u32, List<ExprName>),
    /// `xsl:apply-templates` in this mode (XSLT 2.0, 6.3).
    Apply(ModeUse),
}
