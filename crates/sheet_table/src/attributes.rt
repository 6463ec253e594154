// The attributes of one element.
ghost use Rattle.std.specs.Prelude.{◌≡◌, IsTrue};
ghost use Rattle.std.specs.Option.{option_copied};
ghost use Rattle.sheet_table.specs.Attributes.{attribute, has};
ghost use Rattle.sheet_table.specs.Texts.{is_ascii};

use xt_names::{Text, is_ascii_text};
use xt_tree::Attribute;

/// The value of the attribute without uri that has this local name (XSLT 2.0, 2.2).
pub fn attribute<'a>(attributes: &'a [Attribute], local: &str) -> Option<&'a Text>
    requires { IsTrue (is_ascii local.now) }
    ensures { option_copied result ≡ attribute attributes.now local.now }
{
    for attribute in attributes {
        if attribute.name.uri.is_empty() && is_ascii_text(attribute.name.local.as_str(), local) {
            return Some(&attribute.value);
        }
    }
    None
}

/// Whether the attribute without uri that has this local name is there (XSLT 2.0, 2.2).
pub fn has(attributes: &[Attribute], local: &str) -> bool
    requires { IsTrue (is_ascii local.now) }
    ensures { result ≡ has attributes.now local.now }
{
    for attribute in attributes {
        if attribute.name.uri.is_empty() && is_ascii_text(attribute.name.local.as_str(), local) {
            return true;
        }
    }
    false
}
