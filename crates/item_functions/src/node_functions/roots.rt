// The root of a node's tree.
ghost use Rattle.std.specs.Prelude.{◌≡◌, IfOk};
ghost use Rattle.item_functions.specs.NodeFunctions.Roots.{root_of};

use std::alloc::{AllocError, Global};
use xt_tree::Node;

/// The root of the tree in which the node is (`fn:root`, Functions and Operators, 14.9).
pub fn root(alloc: Global, node: &Node) -> Result<Node, AllocError>
    ensures { IfOk result (λ root. root ≡ root_of node.now) }
{
    Node::root_of(alloc, node.number(), node.tree().copy()?)
}
