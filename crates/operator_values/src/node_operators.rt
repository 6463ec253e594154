// Comparisons of nodes.
ghost use Rattle.std.specs.Prelude.{◌≡◌};
ghost use Rattle.std.specs.List.{list_all};
ghost use Rattle.xt_atoms.specs.Casts.{Answers};
ghost use Rattle.operator_values.specs.Nodes.{is_value, before_value, after_value, precedes};
ghost use Rattle.operator_values.specs.Nodes.{is_equal, is_less, same_node};

use crate::operands::optional_node;
use std::alloc::Global;
use std::cmp::Ordering;
use xdm_items::ItemList;
use xdm_items::function_arguments::{no_items, truth_list};
use xt_atoms::ValueFault;
use xt_names::{Code, DynamicCode};
use xt_tree::{Node, order};

/// Whether neither of two nodes of one tree comes before the other.
fn is_equal(order: Option<Ordering>) -> bool
    ensures { result ≡ is_equal order }
{
    match order {
        Some(order) => order.is_eq(),
        None => false,
    }
}

/// Whether the two are the same node of the same tree.
fn is_same(a: &Node, b: &Node) -> bool
    ensures { result ≡ same_node a.now b.now }
{
    is_equal(order(a, b))
}

/// Whether the first of two nodes of one tree comes before the other.
fn is_less(alloc: Global, order: Option<Ordering>) -> Result<ItemList, ValueFault>
    ensures { Answers (is_less order) result }
{
    match order {
        Some(order) => Ok(truth_list(alloc, order.is_lt())?),
        None => Err(ValueFault::Error(Code::Dynamic(DynamicCode::XTOR0001))),
    }
}

/// Whether the one comes before the other.
fn precedes(alloc: Global, a: &Node, b: &Node) -> Result<ItemList, ValueFault>
    ensures { Answers (precedes a.now b.now) result }
{
    is_less(alloc, order(a, b))
}

/// `a is b`; empty where an operand is. An operand of an atom or of two items fails with XPTY0004
/// (XPath 2.0, 3.5.3).
#[tactic(auto, unfolding(crate::specs::Nodes::is_value))]
pub fn is(alloc: Global, left: &ItemList, right: &ItemList) -> Result<ItemList, ValueFault>
    ensures { Answers (is_value left.now right.now) result }
{
    let left = optional_node(left.as_slice())?;
    let right = optional_node(right.as_slice())?;
    match (left, right) {
        (Some(a), Some(b)) => Ok(truth_list(alloc, is_same(&a, &b))?),
        _ => Ok(no_items(alloc)),
    }
}

/// `a << b`; empty where an operand is. Nodes of two trees fail with XTOR0001, an operand of an
/// atom or of two items with XPTY0004 (XPath 2.0, 3.5.3).
#[tactic(auto, unfolding(crate::specs::Nodes::before_value))]
pub fn before(alloc: Global, left: &ItemList, right: &ItemList) -> Result<ItemList, ValueFault>
    ensures { Answers (before_value left.now right.now) result }
{
    let left = optional_node(left.as_slice())?;
    let right = optional_node(right.as_slice())?;
    match (left, right) {
        (Some(a), Some(b)) => precedes(alloc, &a, &b),
        _ => Ok(no_items(alloc)),
    }
}

/// `a >> b`, as `b << a` but that the left operand is settled first (XPath 2.0, 3.5.3).
#[tactic(auto, unfolding(crate::specs::Nodes::after_value))]
pub fn after(alloc: Global, left: &ItemList, right: &ItemList) -> Result<ItemList, ValueFault>
    ensures { Answers (after_value left.now right.now) result }
{
    let left = optional_node(left.as_slice())?;
    let right = optional_node(right.as_slice())?;
    match (left, right) {
        (Some(a), Some(b)) => precedes(alloc, &b, &a),
        _ => Ok(no_items(alloc)),
    }
}
