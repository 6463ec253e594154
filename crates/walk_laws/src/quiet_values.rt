//! What quiet predicates give among all expressions: laws alone, nothing runs.
//!
//! Patterns have a meaning of predicates that fail on no node, which looks at nodes alone.
//! Expressions have a meaning that reads variables, calls functions and may fail. On quiet predicates
//! the two are one at nodes that can be counted, as those of sound trees can: the meaning of
//! expressions ends, makes nothing, and keeps the same nodes.
//!
//! Example: `child::a[position() < last()]` gives the children `a` but the last, in every program.

ghost use Rattle.std.specs.Prelude.{◌≡◌, ℕ, ◌<◌, ◌^◌, List, map, filter, length, true, Some};
ghost use Rattle.xt_types.specs.declared.axes.Axis.{Axis};
ghost use Rattle.xt_types.specs.declared.node_tests.Test.{Test};
ghost use Rattle.xt_tree.specs.Place.{Place};
ghost use Rattle.xdm_items.specs.declared.items.Item.TheVariants.{Node};
ghost use Rattle.xt_syntax.specs.declared.exprs.Expr.{Expr};
ghost use Rattle.xt_forms.specs.Quiet.{is_quiet_expr};
ghost use Rattle.node_tests.specs.Tests.{passes_at};
ghost use Rattle.node_axes.specs.Axes.{axis_nodes};
ghost use Rattle.node_axes.specs.StepWalks.Nodes.{Focus, kept_by, kept_by_all, step_nodes};
ghost use Rattle.quiet_meaning.specs.Quietly.{quietly_of, holds_at, holds_quietly};
ghost use Rattle.quiet_meaning.specs.Paths.{are_allowed, is_path_form, nodes_of_form, keeps};
ghost use Rattle.expr_meaning.specs.Outcomes.Outcome.{Ends};
ghost use Rattle.expr_meaning.specs.Env.{Env, Meaning, Program};
ghost use Rattle.expr_meaning.specs.Meaning.{outcome};
ghost use Rattle.expr_meaning.specs.Paths.{alone_if, kept_item, kept, kept_in_turn, step_of};
ghost use Rattle.expr_meaning.specs.Paths.{filter_of};
ghost use Rattle.walk_laws.specs.NodeOrders.Counted.{IsCountable, AreCountable};
ghost use Rattle.walk_laws.specs.QuietValues.Given.{as_placed, at_node, decision, given_at, has_value};
ghost use Rattle.walk_laws.specs.QuietValues.Given.{has_quiet_form, have_quiet_forms};

/// A quiet predicate decides at a node of a sound tree as its meaning in patterns says: it ends,
/// takes no number of a tree, and keeps the node where it holds (XPath 2.0, 3.2.2; XSLT 2.0, 5.5.3).
/// `is_quiet` passes such predicates alone, and each of them has its meaning in patterns.
pub fn a_quiet_predicate_keeps_a_node_where_it_holds()
    ensures decides { (program : Program) (e : Expr) (env : Env) (n : Place) (at size k : ℕ) →
        IsCountable n → has_quiet_form e ≡ true →
        decision (outcome program e) env (record { node = n; position = at; size = size }) k
        ≡ Ends (holds_quietly e n at size) k }
    ensures keeps { (program : Program) (e : Expr) (env : Env) (n : Place) (at size k : ℕ) →
        IsCountable n → has_quiet_form e ≡ true →
        kept_item (outcome program e) env
        (as_placed (record { node = n; position = at; size = size })) k
        ≡ alone_if (Node n) (holds_quietly e n at size) k }
    ensures tested { (e : Expr) → is_quiet_expr e ≡ true → has_quiet_form e ≡ true }
    ensures allowed { (tests : List Expr) → have_quiet_forms tests ≡ true →
        are_allowed tests ≡ true }
{}

/// Quiet predicates filter a list of nodes in turn, each by the positions that the ones before it
/// leave: whatever nodes come, those of an axis, in its order, that pass a test, and those of any
/// expression that ends with nodes (XPath 2.0, 3.2.2 and 3.3.2).
pub fn quiet_predicates_filter_nodes_in_turn()
    ensures one { (program : Program) (e : Expr) (env : Env) (ns : List Place) (k : ℕ) →
        AreCountable ns → length ns < 2 ^ 63 → has_quiet_form e ≡ true →
        kept (outcome program e) env (map Node ns) k
        ≡ Ends (map Node (kept_by (holds_at (quietly_of e)) ns)) k }
    ensures all { (program : Program) (tests : List Expr) (env : Env) (ns : List Place) (k : ℕ) →
        AreCountable ns → length ns < 2 ^ 63 → have_quiet_forms tests ≡ true →
        kept_in_turn (map (outcome program) tests) env (map Node ns) k
        ≡ Ends (map Node (kept_by_all (keeps tests) ns)) k }
    ensures axis { (program : Program) (along : Axis) (wanted : Test) (tests : List Expr)
        (env : Env) (n : Place) (k : ℕ) → IsCountable n → have_quiet_forms tests ≡ true →
        kept_in_turn (map (outcome program) tests) env
        (map Node (filter (passes_at along wanted) (axis_nodes along n))) k
        ≡ Ends (map Node (kept_by_all (keeps tests)
        (filter (passes_at along wanted) (axis_nodes along n)))) k }
    ensures filter { (program : Program) (of : Meaning) (tests : List Expr) (env : Env)
        (ns : List Place) (j k : ℕ) → of env j ≡ Ends (map Node ns) k → AreCountable ns →
        length ns < 2 ^ 63 → have_quiet_forms tests ≡ true →
        filter_of of (map (outcome program) tests) env j
        ≡ Ends (map Node (kept_by_all (keeps tests) ns)) k }
{}

/// A step whose predicates are quiet gives the nodes of its axis that pass its test and that the
/// predicates keep, each once and in document order (XPath 2.0, 3.2.1).
pub fn a_step_with_quiet_predicates_gives_the_nodes_that_they_keep()
    ensures { (program : Program) (along : Axis) (wanted : Test) (tests : List Expr) (env : Env)
        (f : Focus) (k : ℕ) → IsCountable f.node → have_quiet_forms tests ≡ true →
        step_of along wanted (map (outcome program) tests) (at_node env f) k
        ≡ Ends (map Node (step_nodes along wanted (keeps tests) f.node)) k }
{}

/// What is in a quiet predicate gives, at a node, the list of its form: a path the nodes that
/// it leads to, in document order, count() of it their number, a comparison its truth value
/// (XPath 2.0, 3). To look at the node that is the focus already changes nothing.
pub fn what_stands_in_a_quiet_predicate_has_a_value()
    ensures value { (program : Program) (e : Expr) (env : Env) (f : Focus) (k : ℕ) →
        IsCountable f.node → has_value (quietly_of e) ≡ true →
        outcome program e (at_node env f) k ≡ Ends (given_at (quietly_of e) f) k }
    ensures path { (program : Program) (e : Expr) (env : Env) (f : Focus) (k : ℕ) →
        IsCountable f.node → is_path_form (quietly_of e) ≡ true →
        outcome program e (at_node env f) k
        ≡ Ends (map Node (nodes_of_form (quietly_of e) f.node)) k }
    ensures here { (env : Env) (f : Focus) → env.focus ≡ Some (as_placed f) →
        at_node env f ≡ env }
{}
