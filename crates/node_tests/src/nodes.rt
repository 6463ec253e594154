// Tests of a node at its place.
ghost use Rattle.std.specs.Prelude.{◌≡◌, Some};
ghost use Rattle.std.specs.Option.{option_copied};
ghost use Rattle.xt_tree.specs.Place.{subtree_at, attribute_tree, subtree_below};
ghost use Rattle.node_tests.specs.Tests.{passes_test, passes_at, passes_principal, tree_passes};

use crate::names::passes_name;
use crate::trees::passes;
use xt_tree::{Attribute, Node, Tree, tree_at};
use xt_types::{Axis, Test};

/// Whether the node on the axis passes the test. It takes no memory.
pub fn node_passes(test: &Test, axis: Axis, node: &Node) -> bool
    ensures { result ≡ passes_at axis test.now node.now }
{
    spot_passes(test, axis, node.tree(), node.path(), node.attribute_place())
}

/// Whether the node at the place in the tree passes the test on the axis; false where the tree has no such place. It takes no
/// memory.
#[tactic(auto, unfolding(crate::specs::Tests::tree_passes))]
pub fn spot_passes(
    test: &Test,
    axis: Axis,
    tree: &Tree,
    path: &[usize],
    attribute: Option<usize>,
) -> bool
    ensures { result ≡ tree_passes axis test.now (subtree_below (subtree_at tree.now path.now) attribute) }
{
    match (tree_at(tree, path), attribute) {
        (None, _) => false,
        (Some(tree), None) => passes(test, axis, tree),
        (Some(tree), Some(place)) => passes_at(test, axis, tree, place),
    }
}

/// Whether the attribute on the axis passes the test. It takes no memory.
#[tactic(auto, unfolding(crate::specs::Tests::passes_test, crate::specs::Tests::passes_principal, crate::specs::Tests::passes_attribute, crate::specs::Tests::passes_element, crate::specs::Tests::is_text, crate::specs::Tests::is_comment, crate::specs::Tests::is_document, crate::specs::Tests::passes_pi))]
pub fn attribute_passes(test: &Test, axis: Axis, attribute: &Attribute) -> bool
    ensures { result ≡ passes_test axis test.now (attribute_tree attribute.now) }
{
    match test {
        Test::Named(name) => axis == Axis::Attribute && passes_name(name, &attribute.name),
        Test::Node => true,
        Test::Attr(name) => passes_name(name, &attribute.name),
        Test::Text | Test::Comment | Test::Pi(_) | Test::Doc | Test::Elem(_) => false,
    }
}

/// Whether the attribute at the place passes; false where there is none.
#[tactic(auto, unfolding(crate::specs::Tests::tree_passes))]
fn passes_at(test: &Test, axis: Axis, tree: &Tree, place: usize) -> bool
    ensures { result ≡ tree_passes axis test.now (subtree_below (Some tree.now) (Some place)) }
{
    match tree.attributes().get(place) {
        Some(attribute) => attribute_passes(test, axis, attribute),
        None => false,
    }
}
