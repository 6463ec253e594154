//! What quiet predicates keep, in the words of XPath 2.0: laws alone, nothing runs.
//!
//! Each law is a function with an empty body, and says of one form of a quiet predicate which nodes it keeps.
//!
//! Example: `b/c = "x"` keeps a node where a child `c` of a child `b` of it has the value `x`.

ghost use Rattle.std.specs.Prelude.{◌≡◌, ◌↔◌, ℕ, ℤ, pos, List, [], ◌∷◌, Bool, true, false, not, length, codes};
ghost use Rattle.std.specs.List.{list_all, list_any};
ghost use Rattle.std.specs.Str.{bytes_eq};
ghost use Rattle.xt_names.specs.declared.kinds.CompareOp.{CompareOp};
ghost use Rattle.xt_names.specs.declared.names.ExprName.{ExprName};
ghost use Rattle.xt_types.specs.declared.axes.Axis.{Axis};
ghost use Rattle.xt_types.specs.declared.node_tests.Test.{Test};
ghost use Rattle.xt_tree.specs.Place.{Place, subtree_of};
ghost use Rattle.xt_syntax.specs.declared.exprs.Expr.{Expr};
ghost use Rattle.xt_atoms.specs.declared.atoms.Atom.TheVariants.{Int as number, Str as string};
ghost use Rattle.xdm_items.specs.Values.{typed_value_below};
ghost use Rattle.xt_forms.specs.Quiet.{quiet_call};
ghost use Rattle.xt_forms.specs.declared.quiet_calls.QuietCall.TheVariants.{Constant, Not, Exists, Count, Last, Position, NameOf};
ghost use Rattle.quiet_meaning.specs.Values.{compares, name_text};
ghost use Rattle.quiet_meaning.specs.Quietly.{holds_quietly};
ghost use Rattle.meaning_laws.specs.QuietLaws.Reached.{IsAmong, IsReached, reached, filtered};
ghost use Rattle.meaning_laws.specs.QuietLaws.Spelled.{integer_of, literal_of, or_of, and_of, comparison_of, slash_of, step_of, call_of, IsPath, are_truths};

/// A step reaches the nodes on its axis that pass its test and that its predicates keep in turn; a path reaches what its last
/// step reaches from a node that the steps before it reach (XPath 2.0, 3.2).
pub fn a_path_reaches_nodes_step_by_step()
    ensures step { (along : Axis) (wanted : Test) (tests : List Expr) (n m : Place) → IsPath (step_of along wanted tests) →
        IsReached (step_of along wanted tests) n m ↔ IsAmong m (filtered along wanted tests n) }
    ensures steps { (a b : Expr) (n k : Place) → IsPath (slash_of a b) → IsReached (slash_of a b) n k ↔ ((m : Place) × (IsReached a n m × IsReached b m k)) }
{}

/// A path keeps a node from which it reaches some node (XPath 2.0, 2.4.3); exists() of it keeps the same, and empty() the others.
pub fn a_path_keeps_a_node_from_which_it_reaches_one()
    ensures path { (e : Expr) (n : Place) (at size : ℕ) → IsPath e → (holds_quietly e n at size ≡ true) ↔ ((m : Place) × IsReached e n m) }
    ensures exists { (name : ExprName) (e : Expr) (n : Place) (at size : ℕ) → quiet_call name ≡ Exists → bytes_eq name.local (codes "exists") ≡ true → IsPath e →
        holds_quietly (call_of name (e ∷ [])) n at size ≡ holds_quietly e n at size }
    ensures empty { (name : ExprName) (e : Expr) (n : Place) (at size : ℕ) → quiet_call name ≡ Exists → bytes_eq name.local (codes "exists") ≡ false → IsPath e →
        holds_quietly (call_of name (e ∷ [])) n at size ≡ not (holds_quietly e n at size) }
{}

/// `[k]` keeps the node at the place k, and `[last()]` the last one (XPath 2.0, 3.2.2).
pub fn numbers_keep_the_node_at_that_place()
    ensures integer { (k : ℤ) (n : Place) (at size : ℕ) → (holds_quietly (integer_of k) n at size ≡ true) ↔ (pos at ≡ k) }
    ensures last { (name : ExprName) (n : Place) (at size : ℕ) → quiet_call name ≡ Last → (holds_quietly (call_of name []) n at size ≡ true) ↔ (at ≡ size) }
{}

/// `or`, `and`, not(), true() and false() are what they are named (XPath 2.0, 3.6).
pub fn logic_is_as_it_is_named()
    ensures or { (all : List Expr) (n : Place) (at size : ℕ) → are_truths all ≡ true → holds_quietly (or_of all) n at size ≡ list_any (λ e. holds_quietly e n at size) all }
    ensures and { (all : List Expr) (n : Place) (at size : ℕ) → are_truths all ≡ true → holds_quietly (and_of all) n at size ≡ list_all (λ e. holds_quietly e n at size) all }
    ensures not { (name : ExprName) (e : Expr) (n : Place) (at size : ℕ) → quiet_call name ≡ Not → are_truths (e ∷ []) ≡ true →
        holds_quietly (call_of name (e ∷ [])) n at size ≡ not (holds_quietly e n at size) }
    ensures constant { (name : ExprName) (n : Place) (at size : ℕ) → quiet_call name ≡ Constant → holds_quietly (call_of name []) n at size ≡ bytes_eq name.local (codes "true") }
{}

/// A path compared with a literal keeps a node from which it reaches a node whose typed value compares so (XPath 2.0, 3.5.2).
pub fn a_comparison_with_a_literal_holds_for_some_node()
    ensures { (op : CompareOp) (a : Expr) (t : List ℕ) (n : Place) (at size : ℕ) → IsPath a →
        (holds_quietly (comparison_of op a (literal_of t)) n at size ≡ true)
        ↔ ((m : Place) × (IsReached a n m × (compares op (typed_value_below (subtree_of m)) (string t) ≡ true))) }
{}

/// position(), last(), count() of a path, name() and local-name() are compared by what they give.
pub fn numbers_and_names_are_compared()
    ensures position { (op : CompareOp) (name : ExprName) (k : ℤ) (n : Place) (at size : ℕ) → quiet_call name ≡ Position →
        holds_quietly (comparison_of op (call_of name []) (integer_of k)) n at size ≡ compares op (number (pos at)) (number k) }
    ensures last { (op : CompareOp) (name : ExprName) (k : ℤ) (n : Place) (at size : ℕ) → quiet_call name ≡ Last →
        holds_quietly (comparison_of op (call_of name []) (integer_of k)) n at size ≡ compares op (number (pos size)) (number k) }
    ensures count { (op : CompareOp) (name : ExprName) (a : Expr) (k : ℤ) (n : Place) (at size : ℕ) → quiet_call name ≡ Count → IsPath a →
        holds_quietly (comparison_of op (call_of name (a ∷ [])) (integer_of k)) n at size ≡ compares op (number (pos (length (reached a n)))) (number k) }
    ensures name { (op : CompareOp) (name : ExprName) (t : List ℕ) (n : Place) (at size : ℕ) → quiet_call name ≡ NameOf →
        holds_quietly (comparison_of op (call_of name []) (literal_of t)) n at size ≡ compares op (string (name_text (bytes_eq name.local (codes "name")) n)) (string t) }
{}
