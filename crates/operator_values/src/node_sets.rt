// Lists of nodes as sets.
ghost use Rattle.std.specs.Prelude.{◌≡◌, ◌++◌, IfOk, filter};
ghost use Rattle.std.specs.List.{list_all, list_any};
ghost use Rattle.std.specs.List.Sorted.{IsPermutation, IsSorted};
ghost use Rattle.xt_atoms.specs.Casts.{Answers};
ghost use Rattle.lazy_seq.specs.Orders.{in_document_order};
ghost use Rattle.operator_values.specs.Nodes.{is_node, same_node, of_sets};
ghost use Rattle.operator_values.specs.Nodes.{union_value, intersect_value, except_value};
ghost use Rattle.operator_values.specs.NodeSets.{places_of, order_of_all, is_listed};
ghost use Rattle.operator_values.specs.NodeSets.{is_wanted, is_kept, is_chosen};

use crate::operands::WRONG_TYPE;
use lazy_seq::Seq;
use std::alloc::{AllocError, Global};
use xdm_items::{Item, ItemList, copy_item_list};
use xt_atoms::ValueFault;
use xt_tree::{Node, order_all};

/// Whether the item is a node.
#[tactic(auto, unfolding(crate::specs::Nodes::is_node))]
fn is_node(item: &Item) -> bool
    ensures { result ≡ is_node item.now }
{
    match item {
        Item::Node(_) => true,
        Item::Atom(_) => false,
    }
}

/// Whether all items are nodes (XPath 2.0, 2.4.1).
pub fn are_nodes(items: &[Item]) -> bool
    ensures { result ≡ list_all is_node items.now }
{
    for item in items {
        if !is_node(item) {
            return false;
        }
    }
    true
}

/// The same nodes in document order, each once (XPath 2.0, 2.4.1).
pub fn in_order(alloc: Global, items: ItemList) -> Result<ItemList, AllocError>
    ensures { IfOk result (λ nodes. nodes ≡ in_document_order items) }
{
    let nodes = Seq::of_list(items).in_document_order(alloc)?;
    nodes.to_list(alloc)
}

/// The items of both lists.
fn joined(left: &ItemList, right: &[Item]) -> Result<ItemList, AllocError>
    ensures { IfOk result (λ items. items ≡ left.now ++ right.now) }
{
    let mut items = copy_item_list(left)?;
    for item in right {
        items.push(item.copy()?)?;
    }
    Ok(items)
}

/// `a union b` and `a | b`: the nodes of both, in document order and each once. An operand that
/// holds an atom fails with XPTY0004, the left one first (XPath 2.0, 3.3.3).
#[tactic(auto, unfolding(crate::specs::Nodes::union_value))]
pub fn union(alloc: Global, left: &ItemList, right: &ItemList) -> Result<ItemList, ValueFault>
    ensures { Answers (union_value left.now right.now) result }
{
    if !are_nodes(left.as_slice()) || !are_nodes(right.as_slice()) {
        return Err(WRONG_TYPE);
    }
    let items = joined(left, right.as_slice())?;
    Ok(in_order(alloc, items)?)
}

/// The nodes among the items.
fn nodes_of(alloc: Global, items: &[Item]) -> Result<Vec<Node>, AllocError>
    ensures { IfOk result (λ nodes. nodes.items ≡ places_of items.now) }
{
    let mut nodes = Vec::with_capacity(alloc, items.len())?;
    for item in items {
        match item {
            Item::Node(node) => nodes.push(node.copy()?)?,
            Item::Atom(_) => {}
        }
    }
    Ok(nodes)
}

/// The nodes among the items, sorted for a search.
fn sorted_nodes(alloc: Global, items: &[Item]) -> Result<Vec<Node>, AllocError>
    ensures sorted { IfOk result (λ nodes. IsSorted order_of_all nodes.items) }
    ensures same { IfOk result (λ nodes. IsPermutation (places_of items.now) nodes.items) }
{
    let mut nodes = nodes_of(alloc, items)?;
    nodes.sort_by(|a, b| order_all(a, b))?;
    Ok(nodes)
}

/// Whether the node is one of the sorted nodes.
fn is_found(nodes: &[Node], node: &Node) -> bool
    requires { IsSorted order_of_all nodes.now }
    ensures { result ≡ list_any (same_node node.now) nodes.now }
{
    nodes
        .binary_search_by(|other| order_all(other, node))
        .is_ok()
}

/// Whether the item is one of the sorted nodes.
fn is_listed(nodes: &[Node], item: &Item) -> bool
    requires { IsSorted order_of_all nodes.now }
    ensures { result ≡ is_listed nodes.now item.now }
{
    match item {
        Item::Node(node) => is_found(nodes, node),
        Item::Atom(_) => false,
    }
}

/// What is found, or what is not.
fn is_wanted(among: bool, found: bool) -> bool
    ensures { result ≡ is_wanted among found }
{
    if among { found } else { !found }
}

/// The items that are among the sorted nodes, or those that are not.
fn chosen(
    alloc: Global,
    items: &[Item],
    nodes: &[Node],
    among: bool,
) -> Result<ItemList, AllocError>
    requires { IsSorted order_of_all nodes.now }
    ensures { IfOk result (λ kept. kept ≡ filter (is_kept among nodes.now) items.now) }
{
    let mut kept = ItemList::new(alloc);
    for item in items {
        if is_wanted(among, is_listed(nodes, item)) {
            kept.push(item.copy()?)?;
        }
    }
    Ok(kept)
}

/// The nodes of the left list that are among those of the right one, or those that are not, in
/// document order and each once.
fn selected(
    alloc: Global,
    left: &ItemList,
    right: &ItemList,
    among: bool,
) -> Result<ItemList, ValueFault>
    ensures { Answers
        (of_sets (λ ns ms. filter (is_chosen among ms) ns) left.now right.now) result }
{
    if !are_nodes(left.as_slice()) || !are_nodes(right.as_slice()) {
        return Err(WRONG_TYPE);
    }
    let nodes = sorted_nodes(alloc, right.as_slice())?;
    let items = chosen(alloc, left.as_slice(), nodes.as_slice(), among)?;
    Ok(in_order(alloc, items)?)
}

/// `a intersect b`: the nodes of the left operand that are in the right one too, in document order
/// and each once. An operand that holds an atom fails with XPTY0004, the left one first (XPath 2.0,
/// 3.3.3).
#[tactic(auto, unfolding(crate::specs::Nodes::intersect_value))]
pub fn intersect(alloc: Global, left: &ItemList, right: &ItemList) -> Result<ItemList, ValueFault>
    ensures { Answers (intersect_value left.now right.now) result }
{
    selected(alloc, left, right, true)
}

/// `a except b`: the nodes of the left operand that are not in the right one, in document order and
/// each once. An operand that holds an atom fails with XPTY0004, the left one first (XPath 2.0,
/// 3.3.3).
#[tactic(auto, unfolding(crate::specs::Nodes::except_value))]
pub fn except(alloc: Global, left: &ItemList, right: &ItemList) -> Result<ItemList, ValueFault>
    ensures { Answers (except_value left.now right.now) result }
{
    selected(alloc, left, right, false)
}
