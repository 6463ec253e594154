//! What steps and `//` give along one axis: laws alone, nothing runs.
//!
//! A step puts what it finds in document order, and `//a` goes from all nodes below to their
//! children. Both are one walk: the nodes of a forward axis come in document order already, and the
//! children of a node and of all nodes below it are its descendants.
//!
//! Example: `.//b[@k]` gives what `descendant::b[@k]` gives, in the order of the axis; `.//b[1]` does
//! not give what `descendant::b[1]` gives.
#![tactic(auto)]

pub mod node_orders;
pub mod quiet_values;
pub mod way_laws;

ghost use Rattle.std.specs.Prelude.{◌≡◌, List, [], Bool, filter, true, false};
ghost use Rattle.std.specs.List.{list_all};
ghost use Rattle.xt_types.specs.declared.axes.Axis.{Axis};
ghost use Rattle.xt_types.specs.declared.axes.Axis.TheVariants.{Child, Descendant, DescendantOrSelf};
ghost use Rattle.xt_types.specs.declared.node_tests.Test.{Test};
ghost use Rattle.xt_types.specs.declared.node_tests.Test.TheVariants.{Node as any_node};
ghost use Rattle.xt_tree.specs.Place.{Place};
ghost use Rattle.xt_syntax.specs.declared.exprs.Expr.{Expr};
ghost use Rattle.node_tests.specs.Tests.{passes_at};
ghost use Rattle.node_axes.specs.Axes.{axis_nodes, is_reverse};
ghost use Rattle.node_axes.specs.StepWalks.Nodes.{Focus, kept_by_all, step_nodes, slash_nodes};
ghost use Rattle.quiet_meaning.specs.Paths.{keeps};
ghost use Rattle.quiet_eval.specs.QuietPlaces.Free.{is_place_free_expr};

/// A step along a forward axis gives the nodes that pass its test and that its predicates keep in
/// the order of the axis, which is document order (XPath 2.0, 3.2.1.1 and 3.2.2).
pub fn forward_steps_give_nodes_in_the_order_of_the_axis()
    ensures { (along : Axis) (wanted : Test) (tests : List (Focus → Bool)) (n : Place) →
        is_reverse along ≡ false → step_nodes along wanted tests n
        ≡ kept_by_all tests (filter (passes_at along wanted) (axis_nodes along n)) }
{}

/// `.//a[p]`, which stands for `./descendant-or-self::node()/child::a[p]`, gives what
/// `descendant::a[p]` gives, where no predicate looks at a position (XPath 2.0, 3.2.4).
pub fn children_of_all_below_are_the_descendants()
    ensures { (wanted : Test) (tests : List Expr) (n : Place) →
        list_all is_place_free_expr tests ≡ true →
        slash_nodes (step_nodes DescendantOrSelf any_node []) (step_nodes Child wanted (keeps tests))
        n ≡ kept_by_all (keeps tests)
        (filter (passes_at Descendant wanted) (axis_nodes Descendant n)) }
{}
