// Texts of characters that XML allows, and names that XML and its namespaces allow.
ghost use Rattle.std.specs.Prelude.{◌≡◌};
ghost use Rattle.closed_queries.specs.Texts.{is_sound_expr_name, is_sound_name, is_sound_attribute_name, is_sound_name_test, is_sound_target, is_sound_test, is_sound_item, is_sound_type, is_sound_kind, is_free_prefix, is_free_uri, is_free_binding};

use xt_names::{Binding, ExprName, Name, Text, is_allowed, is_ascii_text, is_ncname, is_xml_text};
use xt_types::{ItemType, NameTest, SeqType, Test};

/// Whether the name of an expression can be written (Namespaces in XML 1.0, 3 and 7): the local part is a name without a
/// colon, and the uri, of characters of XML, is not that of xmlns.
#[tactic(auto, unfolding(crate::specs::Texts::is_sound_expr_name))]
pub fn is_sound_expr_name(name: &ExprName) -> bool
    ensures { result ≡ is_sound_expr_name name.now }
{
    is_ncname(name.local.as_str())
        && is_xml_text(name.uri.as_str())
        && !is_ascii_text(name.uri.as_str(), "http://www.w3.org/2000/xmlns/")
}

/// Whether XML and its namespaces allow the name, and the uri is of characters of XML.
#[tactic(auto, unfolding(crate::specs::Texts::is_sound_name))]
pub fn is_sound_name(name: &Name) -> bool
    ensures { result ≡ is_sound_name name.now }
{
    is_allowed(name.prefix.as_str(), name.uri.as_str(), name.local.as_str())
        && is_xml_text(name.uri.as_str())
}

/// Whether an attribute may have the name: it is not `xmlns` without a uri.
#[tactic(auto, unfolding(crate::specs::Texts::is_sound_attribute_name))]
pub(crate) fn is_sound_attribute_name(name: &Name) -> bool
    ensures { result ≡ is_sound_attribute_name name.now }
{
    is_sound_name(name) && !(name.uri.is_empty() && is_ascii_text(name.local.as_str(), "xmlns"))
}

/// Whether the texts of the test are of characters of XML, and an exact name can be written.
#[tactic(auto, unfolding(crate::specs::Texts::is_sound_name_test))]
pub fn is_sound_name_test(test: &NameTest) -> bool
    ensures { result ≡ is_sound_name_test test.now }
{
    match test {
        NameTest::Any => true,
        NameTest::Uri(text) | NameTest::Local(text) => is_xml_text(text.as_str()),
        NameTest::Exact(name) => is_sound_expr_name(name),
    }
}

#[tactic(auto, unfolding(crate::specs::Texts::is_sound_target))]
fn is_sound_target(target: &Option<Text>) -> bool
    ensures { result ≡ is_sound_target target.now }
{
    match target {
        None => true,
        Some(target) => is_xml_text(target.as_str()),
    }
}

#[tactic(auto, unfolding(crate::specs::Texts::is_sound_test))]
pub(crate) fn is_sound_test(test: &Test) -> bool
    ensures { result ≡ is_sound_test test.now }
{
    match test {
        Test::Named(name) | Test::Elem(name) | Test::Attr(name) => is_sound_name_test(name),
        Test::Pi(target) => is_sound_target(target),
        Test::Node | Test::Text | Test::Comment | Test::Doc => true,
    }
}

#[tactic(auto, unfolding(crate::specs::Texts::is_sound_item))]
fn is_sound_item(item: &ItemType) -> bool
    ensures { result ≡ is_sound_item item.now }
{
    match item {
        ItemType::Any | ItemType::Atomic(_) => true,
        ItemType::Kind(test) => is_sound_test(test),
    }
}

/// Whether the texts of the type are of characters of XML, and its names can be written.
#[tactic(auto, unfolding(crate::specs::Texts::is_sound_type))]
pub fn is_sound_type(kind: &SeqType) -> bool
    ensures { result ≡ is_sound_type kind.now }
{
    match kind {
        SeqType::Empty => true,
        SeqType::Of(item, _) => is_sound_item(item),
    }
}

#[tactic(auto, unfolding(crate::specs::Texts::is_sound_kind))]
pub(crate) fn is_sound_kind(kind: &Option<SeqType>) -> bool
    ensures { result ≡ is_sound_kind kind.now }
{
    match kind {
        None => true,
        Some(kind) => is_sound_type(kind),
    }
}

#[tactic(auto, unfolding(crate::specs::Texts::is_free_prefix))]
fn is_free_prefix(prefix: &Text) -> bool
    ensures { result ≡ is_free_prefix prefix.now }
{
    is_xml_text(prefix.as_str())
        && !is_ascii_text(prefix.as_str(), "xml")
        && !is_ascii_text(prefix.as_str(), "xmlns")
}

/// Whether a query may declare the uri: that of neither xml nor xmlns.
#[tactic(auto, unfolding(crate::specs::Texts::is_free_uri))]
pub(crate) fn is_free_uri(uri: &Text) -> bool
    ensures { result ≡ is_free_uri uri.now }
{
    is_xml_text(uri.as_str())
        && !is_ascii_text(uri.as_str(), "http://www.w3.org/XML/1998/namespace")
        && !is_ascii_text(uri.as_str(), "http://www.w3.org/2000/xmlns/")
}

/// Whether a query may declare the binding (XQuery 1.0, 4.12).
#[tactic(auto, unfolding(crate::specs::Texts::is_free_binding))]
pub(crate) fn is_free_binding(binding: &Binding) -> bool
    ensures { result ≡ is_free_binding binding.now }
{
    is_free_prefix(&binding.prefix) && is_free_uri(&binding.uri)
}
