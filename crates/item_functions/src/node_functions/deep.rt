// Deep equality.
ghost use Rattle.std.specs.Prelude.{◌≡◌, ◌≤◌, IfOk, IsTrue, Some};
ghost use Rattle.xt_tree.specs.Forest.{forest_size};
ghost use Rattle.xt_tree.specs.Place.{subtree_of};
ghost use Rattle.xt_tree.specs.TreeView.{forest_of};
ghost use Rattle.item_functions.specs.NodeFunctions.Deep.{alike, compared, deep_equal, same_below, same_items, same_trees};
ghost use Rattle.item_functions.specs.NodeFunctions.Left.{begins_compared};

use crate::node_functions::attributes::same_attributes;
use std::alloc::{AllocError, Global};
use xdm_items::Item;
use xt_atoms::{key_same, same_name};
use xt_tree::{Node, Tree};

/// Whether two sequences are deep-equal (`fn:deep-equal`, Functions and Operators, 15.3.1): as
/// many items, pair by pair atoms that are the same key or nodes of one kind and name. Documents
/// and elements then have deep-equal children, comments and processing instructions among these
/// passed over, and elements equal attributes in any order; other nodes have equal texts.
pub fn deep_equal(alloc: Global, items: &[Item], others: &[Item]) -> Result<bool, AllocError>
    ensures { IfOk result (λ same. same ≡ deep_equal items.now others.now) }
{
    let mut left = items;
    let mut right = others;
    while let [x, xs @ ..] = left {
        match right {
            [y, ys @ ..] => {
                if !same_items(alloc, x, y)? {
                    return Ok(false);
                }
                left = xs;
                right = ys;
            }
            [] => return Ok(false),
        }
    }
    Ok(right.is_empty())
}

/// Whether two items are deep-equal.
pub fn same_items(alloc: Global, a: &Item, b: &Item) -> Result<bool, AllocError>
    ensures { IfOk result (λ same. same ≡ same_items a.now b.now) }
{
    match (a, b) {
        (Item::Node(x), Item::Node(y)) => same_nodes(alloc, x, y),
        (Item::Atom(x), Item::Atom(y)) => Ok(key_same(x, y)),
        _ => Ok(false),
    }
}

fn same_nodes(alloc: Global, a: &Node, b: &Node) -> Result<bool, AllocError>
    ensures { IfOk result (λ same. same ≡ same_below (subtree_of a.now) (subtree_of b.now)) }
{
    let tree = a.subtree()?;
    let same = same_as(alloc, &tree, b);
    drop(tree);
    same
}

fn same_as(alloc: Global, tree: &Tree, node: &Node) -> Result<bool, AllocError>
    ensures { IfOk result (λ same. same ≡ same_below (Some tree.now) (subtree_of node.now)) }
{
    let other = node.subtree()?;
    let same = same_trees(alloc, tree, &other);
    drop(other);
    same
}

#[cycle(deep)]
fn same_trees(alloc: Global, a: &Tree, b: &Tree) -> Result<bool, AllocError>
    ensures { IfOk result (λ same. same ≡ same_trees a.now b.now) }
{
    match (a, b) {
        (Tree::Doc(x), Tree::Doc(y)) => same_kids(alloc, x.as_slice(), y.as_slice()),
        (Tree::Elem(name, attrs, kids), Tree::Elem(other_name, other_attrs, other_kids)) => {
            if !same_name(name, other_name) {
                return Ok(false);
            }
            if !same_attributes(alloc, attrs.as_slice(), other_attrs.as_slice())? {
                return Ok(false);
            }
            same_kids(alloc, kids.as_slice(), other_kids.as_slice())
        }
        (Tree::Text(x), Tree::Text(y)) => Ok(x == y),
        (Tree::Comment(x), Tree::Comment(y)) => Ok(x == y),
        (Tree::Pi(target, x), Tree::Pi(other, y)) => Ok(target == other && x == y),
        (Tree::Attr(name, x), Tree::Attr(other, y)) => Ok(same_name(name, other) && x == y),
        _ => Ok(false),
    }
}

/// Whether the children are deep-equal, comments and processing instructions passed over.
#[cycle(deep)]
fn same_kids(alloc: Global, kids: &[Tree], others: &[Tree]) -> Result<bool, AllocError>
    ensures { IfOk result (λ same. same
        ≡ alike (compared (forest_of kids.now)) (compared (forest_of others.now))) }
{
    let mut left = from_compared(kids);
    let mut right = from_compared(others);
    while let [x, xs @ ..] = left {
        match right {
            [y, ys @ ..] => {
                if !same_trees(alloc, x, y)? {
                    return Ok(false);
                }
                left = from_compared(xs);
                right = from_compared(ys);
            }
            [] => return Ok(false),
        }
    }
    Ok(right.is_empty())
}

/// The trees from the first on that is neither a comment nor a processing instruction.
fn from_compared(trees: &[Tree]) -> &[Tree]
    ensures same { compared (forest_of result.now) ≡ compared (forest_of trees.now) }
    ensures first { IsTrue (begins_compared result.now) }
    ensures size { forest_size (forest_of result.now) ≤ forest_size (forest_of trees.now) }
{
    let mut left = trees;
    while let [Tree::Comment(_) | Tree::Pi(_, _), rest @ ..] = left {
        left = rest;
    }
    left
}
