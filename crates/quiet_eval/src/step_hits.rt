// The nodes of an axis that pass a test.
ghost use Rattle.std.specs.Prelude.{◌≡◌, ◌++◌, ◌<◌, IfOk, Ok, true, false, filter, length};
ghost use Rattle.quiet_meaning.specs.NodeTests.Tests.{passes_at};
ghost use Rattle.node_axes.specs.Axes.{axis_nodes};
ghost use Rattle.node_axes.specs.StepWalks.Hits.{hits_ahead};

use node_axes::Cursor;
use node_axes::step_walks::next_hit;
use std::alloc::{AllocError, Global};
use xt_tree::Node;
use xt_types::{Axis, Test};

/// The nodes on the axis of the node that pass the test, in the order of the axis.
#[tactic(auto, unfolding(node_axes::specs::StepWalks::Hits::hits_ahead))]
pub fn hits(alloc: Global, axis: Axis, test: &Test, node: &Node) -> Result<Vec<Node>, AllocError>
    ensures { IfOk result (λ nodes. nodes.items ≡ filter (passes_at axis test.now) (axis_nodes axis node.now)) }
{
    let mut cursor = Cursor::new(alloc, node, axis, test.copy()?)?;
    hits_ahead(alloc, &mut cursor)
}

/// The nodes that the cursor has not reached yet and that pass its test (XPath 2.0, 3.2.1).
pub fn hits_ahead(alloc: Global, cursor: &mut Cursor) -> Result<Vec<Node>, AllocError>
    ensures { IfOk result (λ nodes. nodes.items ≡ hits_ahead cursor.old) }
{
    let mut nodes = Vec::new(alloc);
    while take_hit(cursor, &mut nodes)? {}
    Ok(nodes)
}

/// Puts the next node that passes to the end of the list; false where there is none.
fn take_hit(cursor: &mut Cursor, nodes: &mut Vec<Node>) -> Result<bool, AllocError>
    ensures more { result ≡ Ok true → nodes.new.items ++ hits_ahead cursor.new ≡ nodes.old.items ++ hits_ahead cursor.old }
    ensures less { result ≡ Ok true → length (hits_ahead cursor.new) < length (hits_ahead cursor.old) }
    ensures end { result ≡ Ok false → nodes.new.items ≡ nodes.old.items ++ hits_ahead cursor.old }
{
    match next_hit(cursor)? {
        Some(node) => {
            nodes.push(node)?;
            Ok(true)
        }
        None => Ok(false),
    }
}
