// One step along an axis.
ghost use Rattle.std.specs.Prelude.{◌≡◌, ◌≢◌, ◌≤◌, ◌<◌, ◌+◌, ◌++◌, true, false, Some, None};
ghost use Rattle.std.specs.Option.{SomeIff, option_to_list};
ghost use Rattle.std.specs.Vec.{vec_capacity};
ghost use Rattle.xt_tree.specs.TreeView.{tree_depth};
ghost use Rattle.xt_types.specs.declared.axes.Axis.TheVariants.{Attribute, Itself, DescendantOrSelf, AncestorOrSelf};
ghost use Rattle.node_axes.specs.Axes.{on_axis, spot_of};
ghost use Rattle.node_axes.specs.Course.{is_further, come_after, present_at};
ghost use Rattle.node_axes.specs.Moves.{attribute_count_at, has_spot, IsSteady, Lands, Ends, every};
ghost use Rattle.node_axes.specs.Paths.{has_path};

use crate::moves::{attribute_count, go_back, go_down, go_left, go_on, go_right, go_up, skip};
use xt_tree::{Node, Tree};
use xt_types::Axis;

/// Moves a walk of the axis on from where it stands. True where there is a further node, at which the walk stands then; false
/// where there is none, and the walk stands past the end. It takes no memory.
pub(crate) fn move_on(
    axis: Axis,
    start: &Node,
    begun: bool,
    here: bool,
    path: &mut Vec<usize>,
    attribute: &mut Option<usize>,
) -> bool
    requires { IsSteady axis start.now begun here path.old.items attribute.old (vec_capacity path.old) }
    ensures steady { IsSteady axis start.now true result path.new.items attribute.new (vec_capacity path.new) }
    ensures walk { let now = present_at result start.now path.new.items attribute.new in
        come_after axis start.now begun (present_at here start.now path.old.items attribute.old) ≡ option_to_list now ++ come_after axis start.now true now }
{
    if here {
        next(axis, start, path, attribute)
    } else if begun {
        false
    } else {
        first(axis, start, path, attribute)
    }
}

/// From the start to the first node of its axis; false where there is none.
fn first(axis: Axis, start: &Node, path: &mut Vec<usize>, attribute: &mut Option<usize>) -> bool
    requires exists { has_spot start.now.tree (spot_of start.now) ≡ true }
    requires at { path.old.items ≡ start.now.path }
    requires same { attribute.old ≡ start.now.attribute }
    requires room { tree_depth start.now.tree ≤ vec_capacity path.old }
    ensures yes { result ≡ true → Lands axis start.now.tree (spot_of start.now) every (path.new.items, attribute.new) }
    ensures no { result ≡ false → Ends axis start.now.tree (spot_of start.now) every }
    ensures room { vec_capacity path.old ≤ vec_capacity path.new }
{
    match *attribute {
        None => match axis {
            Axis::Attribute => match attribute_at(start.tree(), path.as_slice(), 0) {
                Some(place) => {
                    *attribute = Some(place);
                    true
                }
                None => false,
            },
            _ => first_of_node(axis, start, path),
        },
        Some(place) => match axis {
            Axis::Itself => true,
            Axis::DescendantOrSelf => true,
            Axis::AncestorOrSelf => true,
            _ => {
                *attribute = None;
                first_of_attribute(axis, start, path, place)
            }
        },
    }
}

/// From a node of the axis to the next; false where there is none.
fn next(axis: Axis, start: &Node, path: &mut Vec<usize>, attribute: &mut Option<usize>) -> bool
    requires on { on_axis axis (spot_of start.now) (path.old.items, attribute.old) ≡ true }
    requires exists { has_spot start.now.tree (path.old.items, attribute.old) ≡ true }
    requires start { has_spot start.now.tree (spot_of start.now) ≡ true }
    requires room { tree_depth start.now.tree ≤ vec_capacity path.old }
    ensures yes { result ≡ true → Lands axis start.now.tree (spot_of start.now) (is_further axis (path.old.items, attribute.old)) (path.new.items, attribute.new) }
    ensures no { result ≡ false → Ends axis start.now.tree (spot_of start.now) (is_further axis (path.old.items, attribute.old)) }
    ensures room { vec_capacity path.old ≤ vec_capacity path.new }
{
    match *attribute {
        None => next_of_node(axis, start, path),
        Some(place) => match axis {
            Axis::Attribute => match attribute_behind(start.tree(), path.as_slice(), place) {
                Some(behind) => {
                    *attribute = Some(behind);
                    true
                }
                None => false,
            },
            Axis::AncestorOrSelf => {
                *attribute = None;
                true
            }
            _ => false,
        },
    }
}

/// The attribute at the place; None where the node at the path has none there.
fn attribute_at(tree: &Tree, path: &[usize], place: usize) -> Option<usize>
    ensures { SomeIff result (place < attribute_count_at tree.now path.now) place }
{
    if place < attribute_count(tree, path) {
        Some(place)
    } else {
        None
    }
}

/// The attribute after the place; None where the node at the path has none there.
fn attribute_behind(tree: &Tree, path: &[usize], place: usize) -> Option<usize>
    ensures { SomeIff result (place + 1 < attribute_count_at tree.now path.now) (place + 1) }
{
    let count = attribute_count(tree, path);
    if count > 0 && place < count - 1 {
        Some(place + 1)
    } else {
        None
    }
}

/// From a node that is no attribute to the first node of its axis; false where there is none.
fn first_of_node(axis: Axis, start: &Node, path: &mut Vec<usize>) -> bool
    requires axis { axis ≢ Attribute }
    requires plain { start.now.attribute ≡ None }
    requires at { path.old.items ≡ start.now.path }
    requires exists { has_path start.now.tree path.old.items ≡ true }
    requires room { tree_depth start.now.tree ≤ vec_capacity path.old }
    ensures yes { result ≡ true → Lands axis start.now.tree (spot_of start.now) every (path.new.items, None) }
    ensures no { result ≡ false → Ends axis start.now.tree (spot_of start.now) every }
    ensures room { vec_capacity path.old ≤ vec_capacity path.new }
{
    let tree = start.tree();
    match axis {
        Axis::Child => go_down(tree, path),
        Axis::Descendant => go_down(tree, path),
        Axis::FollowingSibling => go_right(tree, path),
        Axis::PrecedingSibling => go_left(tree, path),
        Axis::Following => skip(tree, path, 0),
        Axis::Preceding => go_back(tree, start.path(), path),
        Axis::Parent => go_up(tree, path),
        Axis::Ancestor => go_up(tree, path),
        Axis::Itself => true,
        Axis::DescendantOrSelf => true,
        Axis::AncestorOrSelf => true,
        Axis::Attribute => false,
    }
}

/// From an attribute to the first other node of its axis; false where there is none.
fn first_of_attribute(axis: Axis, start: &Node, path: &mut Vec<usize>, place: usize) -> bool
    requires itself { axis ≢ Itself }
    requires below { axis ≢ DescendantOrSelf }
    requires above { axis ≢ AncestorOrSelf }
    requires place { start.now.attribute ≡ Some place }
    requires at { path.old.items ≡ start.now.path }
    requires exists { has_path start.now.tree path.old.items ≡ true }
    requires room { tree_depth start.now.tree ≤ vec_capacity path.old }
    ensures yes { result ≡ true → Lands axis start.now.tree (spot_of start.now) every (path.new.items, None) }
    ensures no { result ≡ false → Ends axis start.now.tree (spot_of start.now) every }
    ensures room { vec_capacity path.old ≤ vec_capacity path.new }
{
    let _ = place;
    match axis {
        Axis::Following => go_on(start.tree(), path, 0),
        Axis::Preceding => go_back(start.tree(), start.path(), path),
        Axis::Parent => true,
        Axis::Ancestor => true,
        Axis::Child => false,
        Axis::Descendant => false,
        Axis::FollowingSibling => false,
        Axis::PrecedingSibling => false,
        Axis::Attribute => false,
        Axis::Itself => false,
        Axis::DescendantOrSelf => false,
        Axis::AncestorOrSelf => false,
    }
}

/// From a node of the axis that is no attribute to the next; false where there is none.
fn next_of_node(axis: Axis, start: &Node, path: &mut Vec<usize>) -> bool
    requires on { on_axis axis (spot_of start.now) (path.old.items, None) ≡ true }
    requires exists { has_path start.now.tree path.old.items ≡ true }
    requires start { has_path start.now.tree start.now.path ≡ true }
    requires room { tree_depth start.now.tree ≤ vec_capacity path.old }
    ensures yes { result ≡ true → Lands axis start.now.tree (spot_of start.now) (is_further axis (path.old.items, None)) (path.new.items, None) }
    ensures no { result ≡ false → Ends axis start.now.tree (spot_of start.now) (is_further axis (path.old.items, None)) }
    ensures room { vec_capacity path.old ≤ vec_capacity path.new }
{
    let tree = start.tree();
    match axis {
        Axis::Child => go_right(tree, path),
        Axis::FollowingSibling => go_right(tree, path),
        Axis::PrecedingSibling => go_left(tree, path),
        Axis::Descendant => go_on(tree, path, start.path().len()),
        Axis::DescendantOrSelf => go_on(tree, path, start.path().len()),
        Axis::Following => go_on(tree, path, 0),
        Axis::Preceding => go_back(tree, start.path(), path),
        Axis::Ancestor => go_up(tree, path),
        Axis::AncestorOrSelf => go_up(tree, path),
        Axis::Itself => false,
        Axis::Parent => false,
        Axis::Attribute => false,
    }
}
