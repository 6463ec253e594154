// The names of the elements of a stylesheet.
ghost use Rattle.std.specs.Prelude.{◌≡◌};
ghost use Rattle.sheet_meaning.specs.First.{is_named_stylesheet, is_named_template, is_named_apply_templates};

use xt_names::{Name, is_ascii_text, is_in_xslt};

/// Whether it is the name xsl:stylesheet.
#[tactic(auto, unfolding(sheet_meaning::specs::First::is_named_stylesheet))]
pub fn is_stylesheet(name: &Name) -> bool
    ensures { result ≡ is_named_stylesheet name.now }
{
    is_in_xslt(name) && is_ascii_text(name.local.as_str(), "stylesheet")
}

/// Whether it is the name xsl:template.
#[tactic(auto, unfolding(sheet_meaning::specs::First::is_named_template))]
pub fn is_template(name: &Name) -> bool
    ensures { result ≡ is_named_template name.now }
{
    is_in_xslt(name) && is_ascii_text(name.local.as_str(), "template")
}

/// Whether it is the name xsl:apply-templates.
#[tactic(auto, unfolding(sheet_meaning::specs::First::is_named_apply_templates))]
pub fn is_apply_templates(name: &Name) -> bool
    ensures { result ≡ is_named_apply_templates name.now }
{
    is_in_xslt(name) && is_ascii_text(name.local.as_str(), "apply-templates")
}
