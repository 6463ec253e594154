// Tests of the tree below a node.
ghost use Rattle.std.specs.Prelude.{◌≡◌};
ghost use Rattle.node_tests.specs.Tests.{passes_element, passes_attribute, passes_principal, is_text, is_comment, is_document, passes_pi, passes_test};

use crate::names::{has_target, passes_name};
use xt_names::Text;
use xt_tree::Tree;
use xt_types::{Axis, NameTest, Test};

#[tactic(auto, unfolding(crate::specs::Tests::passes_element))]
fn passes_element(test: &NameTest, tree: &Tree) -> bool
    ensures { result ≡ passes_element test.now tree.now }
{
    match tree {
        Tree::Elem(name, _, _) => passes_name(test, name),
        _ => false,
    }
}

#[tactic(auto, unfolding(crate::specs::Tests::passes_attribute))]
fn passes_attribute(test: &NameTest, tree: &Tree) -> bool
    ensures { result ≡ passes_attribute test.now tree.now }
{
    match tree {
        Tree::Attr(name, _) => passes_name(test, name),
        _ => false,
    }
}

/// A node of the axis' principal kind, with such a name.
#[tactic(auto, unfolding(crate::specs::Tests::passes_principal))]
fn passes_principal(axis: Axis, test: &NameTest, tree: &Tree) -> bool
    ensures { result ≡ passes_principal axis test.now tree.now }
{
    match axis {
        Axis::Attribute => passes_attribute(test, tree),
        _ => passes_element(test, tree),
    }
}

#[tactic(auto, unfolding(crate::specs::Tests::is_text))]
fn is_text(tree: &Tree) -> bool
    ensures { result ≡ is_text tree.now }
{
    matches!(tree, Tree::Text(_))
}

#[tactic(auto, unfolding(crate::specs::Tests::is_comment))]
fn is_comment(tree: &Tree) -> bool
    ensures { result ≡ is_comment tree.now }
{
    matches!(tree, Tree::Comment(_))
}

#[tactic(auto, unfolding(crate::specs::Tests::is_document))]
fn is_document(tree: &Tree) -> bool
    ensures { result ≡ is_document tree.now }
{
    matches!(tree, Tree::Doc(_))
}

#[tactic(auto, unfolding(crate::specs::Tests::passes_pi))]
fn passes_pi(wanted: &Option<Text>, tree: &Tree) -> bool
    ensures { result ≡ passes_pi wanted.now tree.now }
{
    match tree {
        Tree::Pi(target, _) => has_target(wanted, target),
        _ => false,
    }
}

/// Whether a node on the axis passes the test, by the tree below it; an attribute is a tree of its own here. It takes no
/// memory.
#[tactic(auto, unfolding(crate::specs::Tests::passes_test))]
pub fn passes(test: &Test, axis: Axis, tree: &Tree) -> bool
    ensures { result ≡ passes_test axis test.now tree.now }
{
    match test {
        Test::Named(name) => passes_principal(axis, name, tree),
        Test::Node => true,
        Test::Text => is_text(tree),
        Test::Comment => is_comment(tree),
        Test::Pi(target) => passes_pi(target, tree),
        Test::Doc => is_document(tree),
        Test::Elem(name) => passes_element(name, tree),
        Test::Attr(name) => passes_attribute(name, tree),
    }
}
