// What the rules and xml:space say of an element.
ghost use Rattle.std.specs.Prelude.{◌≡◌};
ghost use Rattle.doc_set.specs.WhiteSpace.Stripped.{strips, is_xml_space, says_preserve, says_default, preserves, drops_in};

use node_tests::passes_name;
use xt_names::{Name, is_ascii_text};
use xt_tree::Attribute;
use xt_types::SpaceRule;

/// Whether texts of white space go that stand directly in an element of this name.
#[tactic(auto, unfolding(crate::specs::WhiteSpace::Stripped::drops_in))]
pub(crate) fn drops_in(rules: &[SpaceRule], kept: bool, name: &Name) -> bool
    ensures { result ≡ drops_in rules.now kept name.now }
{
    strips(rules, name) && !kept
}

/// What the first rule says that passes the name.
#[tactic(auto, unfolding(crate::specs::WhiteSpace::Stripped::strips))]
fn strips(rules: &[SpaceRule], name: &Name) -> bool
    ensures { result ≡ strips rules.now name.now }
{
    let mut left = rules;
    while let [first, rest @ ..] = left {
        if passes_name(&first.test, name) {
            return first.strip;
        }
        left = rest;
    }
    false
}

/// Whether white space stays in an element with these attributes, by the nearest xml:space.
#[tactic(auto, unfolding(crate::specs::WhiteSpace::Stripped::preserves))]
pub(crate) fn preserves(outer: bool, attributes: &[Attribute]) -> bool
    ensures { result ≡ preserves outer attributes.now }
{
    let mut left = attributes;
    while let [first, rest @ ..] = left {
        if says_preserve(first) {
            return true;
        }
        if says_default(first) {
            return false;
        }
        left = rest;
    }
    outer
}

#[tactic(auto, unfolding(crate::specs::WhiteSpace::Stripped::says_preserve))]
fn says_preserve(attribute: &Attribute) -> bool
    ensures { result ≡ says_preserve attribute.now }
{
    is_xml_space(&attribute.name) && is_ascii_text(attribute.value.as_str(), "preserve")
}

#[tactic(auto, unfolding(crate::specs::WhiteSpace::Stripped::says_default))]
fn says_default(attribute: &Attribute) -> bool
    ensures { result ≡ says_default attribute.now }
{
    is_xml_space(&attribute.name) && is_ascii_text(attribute.value.as_str(), "default")
}

#[tactic(auto, unfolding(crate::specs::WhiteSpace::Stripped::is_xml_space))]
fn is_xml_space(name: &Name) -> bool
    ensures { result ≡ is_xml_space name.now }
{
    is_ascii_text(name.uri.as_str(), "http://www.w3.org/XML/1998/namespace")
        && is_ascii_text(name.local.as_str(), "space")
}
