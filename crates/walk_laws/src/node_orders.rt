//! Nodes of one tree: their document order, and how many there are: laws alone, nothing runs.
//!
//! Expressions have items, and put the nodes among them in document order by where each stands.
//! Steps have places in one tree, and take them from the walk over it. On nodes of one tree the two
//! orders are one.
//!
//! Example: `..` from two children of one element is that element once, by either order.

ghost use Rattle.std.specs.Prelude.{◌≡◌, ◌≤◌, List, map, length, true};
ghost use Rattle.xt_types.specs.declared.axes.Axis.{Axis};
ghost use Rattle.xt_tree.specs.Place.{Place, has_place};
ghost use Rattle.xt_tree.specs.Sound.{is_sound_tree};
ghost use Rattle.xt_tree.specs.TreeView.{tree_size};
ghost use Rattle.xdm_items.specs.declared.items.Item.TheVariants.{Node};
ghost use Rattle.node_axes.specs.Axes.{axis_nodes};
ghost use Rattle.node_axes.specs.StepWalks.Nodes.{in_tree_order};
ghost use Rattle.node_axes.specs.StepWalks.Within.{AreWithin};
ghost use Rattle.lazy_seq.specs.Orders.{in_document_order};
ghost use Rattle.walk_laws.specs.NodeOrders.Counted.{IsCountable, AreCountable};

/// Items that are nodes of one tree stand in document order as the nodes do in the order of their
/// tree, each once (XDM, 2.4).
pub fn document_order_is_the_order_of_the_tree()
    ensures { (n : Place) (ms : List Place) → AreWithin n ms →
        in_document_order (map Node ms) ≡ map Node (in_tree_order n ms) }
{}

/// The nodes of a sound tree can be counted, as all nodes of a tree can where one can; neither an
/// axis nor a list in order has more than there are (XDM, 2.4).
pub fn nodes_of_sound_trees_can_be_counted()
    ensures sound { (n : Place) → is_sound_tree n.tree ≡ true → has_place n ≡ true →
        IsCountable n }
    ensures others { (n : Place) (ms : List Place) → IsCountable n → AreWithin n ms →
        AreCountable ms }
    ensures axis { (axis : Axis) (n : Place) → length (axis_nodes axis n) ≤ tree_size n.tree }
    ensures ordered { (n : Place) (ms : List Place) →
        length (in_tree_order n ms) ≤ tree_size n.tree }
{}
