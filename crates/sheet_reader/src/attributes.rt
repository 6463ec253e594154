// The attributes of the elements of a stylesheet.
ghost use Rattle.std.specs.Prelude.{◌≡◌};
ghost use Rattle.sheet_meaning.specs.First.{is_version, is_match, is_first_pattern, is_no_attribute};

use xt_names::{Text, is_ascii_text, is_ncname};
use xt_tree::Attribute;

/// Whether there is no attribute.
#[tactic(auto, unfolding(sheet_meaning::specs::First::is_no_attribute))]
pub fn is_none(attributes: &[Attribute]) -> bool
    ensures { result ≡ is_no_attribute attributes.now }
{
    match attributes {
        [] => true,
        [_, ..] => false,
    }
}

/// Whether the one attribute is `version="2.0"`.
#[tactic(auto, unfolding(sheet_meaning::specs::First::is_version))]
pub fn is_version(attributes: &[Attribute]) -> bool
    ensures { result ≡ is_version attributes.now }
{
    match attributes {
        [only] => only.name.uri.is_empty()
            && is_ascii_text(only.name.local.as_str(), "version")
            && is_ascii_text(only.value.as_str(), "2.0"),
        _ => false,
    }
}

/// Whether the one attribute is `match`, with a pattern of the first form.
#[tactic(auto, unfolding(sheet_meaning::specs::First::is_match))]
pub fn is_match(attributes: &[Attribute]) -> bool
    ensures { result ≡ is_match attributes.now }
{
    match attributes {
        [only] => only.name.uri.is_empty()
            && is_ascii_text(only.name.local.as_str(), "match")
            && is_pattern(&only.value),
        _ => false,
    }
}

/// Whether the pattern is `/` or an NCName.
#[tactic(auto, unfolding(sheet_meaning::specs::First::is_first_pattern))]
fn is_pattern(pattern: &Text) -> bool
    ensures { result ≡ is_first_pattern pattern.now }
{
    is_ascii_text(pattern.as_str(), "/") || is_ncname(pattern.as_str())
}
