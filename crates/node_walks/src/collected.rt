// What predicates keep of the nodes along an axis, as one list.
ghost use Rattle.std.specs.Prelude.{◌≡◌, map, true, IfOk};
ghost use Rattle.quiet_eval.specs.QuietMeaning.Paths.{are_allowed, keeps};
ghost use Rattle.node_axes.specs.StepWalks.Hits.{hits_ahead};
ghost use Rattle.node_axes.specs.StepWalks.Nodes.{kept_by_all};
ghost use Rattle.xdm_items.specs.declared.items.Item.TheVariants.{Node as a_node};

use node_axes::Cursor;
use quiet_eval::{hits_ahead, kept_in_turn};
use std::alloc::{AllocError, Global};
use xdm_items::{Item, ItemList};
use xt_syntax::Expr;
use xt_tree::Node;

/// The nodes that the cursor has not reached yet, that pass its test and that the predicates keep in
/// turn, where each of them counts positions in the list that it gets (XPath 2.0, 3.2.2). The whole
/// axis is walked, so the predicates may look at how many nodes there are.
pub fn kept_hits(alloc: Global, cursor: Cursor, tests: &[Expr]) -> Result<ItemList, AllocError>
    requires { are_allowed tests.now ≡ true }
    ensures { let kept = kept_by_all (keeps tests.now) (hits_ahead cursor) in
        IfOk result (λ items. items ≡ map a_node kept) }
{
    let mut cursor = cursor;
    let nodes = hits_ahead(alloc, &mut cursor)?;
    let kept = kept_in_turn(alloc, tests, nodes)?;
    as_items(alloc, kept.as_slice())
}

fn as_items(alloc: Global, nodes: &[Node]) -> Result<ItemList, AllocError>
    ensures { IfOk result (λ items. items ≡ map a_node nodes.now) }
{
    let mut items = ItemList::new(alloc);
    for node in nodes {
        items.push(Item::Node(node.copy()?))?;
    }
    Ok(items)
}
