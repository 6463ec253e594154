// Tests and types of a regular form.
ghost use Rattle.std.specs.Prelude.{◌≡◌};
ghost use Rattle.xt_types.specs.Regular.{is_regular_name_test, is_kind_name, is_regular_test, is_named, is_regular_item, is_regular_type};

use crate::node_tests::{NameTest, Test};
use crate::types::{ItemType, SeqType};

/// Whether the test is `*`, or tests for a name, a local part or a uri that is not empty.
#[tactic(auto, unfolding(crate::specs::Regular::is_regular_name_test))]
pub fn is_regular_name_test(test: &NameTest) -> bool
    ensures { result ≡ is_regular_name_test test.now }
{
    match test {
        NameTest::Uri(uri) => !uri.is_empty(),
        NameTest::Any | NameTest::Local(_) | NameTest::Exact(_) => true,
    }
}

#[tactic(auto, unfolding(crate::specs::Regular::is_kind_name))]
fn is_kind_name(test: &NameTest) -> bool
    ensures { result ≡ is_kind_name test.now }
{
    match test {
        NameTest::Any | NameTest::Exact(_) => true,
        NameTest::Uri(_) | NameTest::Local(_) => false,
    }
}

/// Whether a step can have the test: a name test that is regular, or a kind test in which an element or attribute has
/// a name or `*`.
#[tactic(auto, unfolding(crate::specs::Regular::is_regular_test))]
pub fn is_regular_test(test: &Test) -> bool
    ensures { result ≡ is_regular_test test.now }
{
    match test {
        Test::Named(name) => is_regular_name_test(name),
        Test::Elem(name) | Test::Attr(name) => is_kind_name(name),
        Test::Node | Test::Text | Test::Comment | Test::Pi(_) | Test::Doc => true,
    }
}

#[tactic(auto, unfolding(crate::specs::Regular::is_named))]
fn is_named(test: &Test) -> bool
    ensures { result ≡ is_named test.now }
{
    matches!(test, Test::Named(_))
}

#[tactic(auto, unfolding(crate::specs::Regular::is_regular_item))]
fn is_regular_item(item: &ItemType) -> bool
    ensures { result ≡ is_regular_item item.now }
{
    match item {
        ItemType::Any | ItemType::Atomic(_) => true,
        ItemType::Kind(test) => !is_named(test) && is_regular_test(test),
    }
}

/// Whether the type can be written: a kind in it is no name test, and an element or attribute in it has a name or `*`.
#[tactic(auto, unfolding(crate::specs::Regular::is_regular_type))]
pub fn is_regular_type(kind: &SeqType) -> bool
    ensures { result ≡ is_regular_type kind.now }
{
    match kind {
        SeqType::Empty => true,
        SeqType::Of(item, _) => is_regular_item(item),
    }
}
