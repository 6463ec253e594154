//! What expressions mean that one walk along an axis answers: laws alone, nothing runs.
//!
//! A step from the context node, and a path of one step from `.`, `/`, `.//` or `//`, leads to nodes
//! along one axis, of which quiet predicates keep some. `Ways` in `specs/` says which expressions are
//! such, and from where they lead along which axis.
//!
//! Example: `//a[@k]` leads from the root along the descendants, in every program.

ghost use Rattle.std.specs.Prelude.{◌≡◌, ◌<◌, ◌^◌, ℕ, Some, length, map, true};
ghost use Rattle.xt_tree.specs.Place.{has_place};
ghost use Rattle.xdm_items.specs.declared.items.Item.TheVariants.{Node};
ghost use Rattle.xt_syntax.specs.declared.exprs.Expr.{Expr};
ghost use Rattle.expr_meaning.specs.Outcomes.Outcome.{Ends};
ghost use Rattle.expr_meaning.specs.Env.{Env, Program};
ghost use Rattle.expr_meaning.specs.Meaning.{outcome};
ghost use Rattle.walk_laws.specs.WayLaws.Ways.{Way, is_walked, way_nodes, way_of};

/// An expression that has a way along a forward axis with quiet predicates, in a tree whose nodes can
/// be counted, ends in every program with the nodes that the way leads to, and makes no tree
/// (XPath 2.0, 3.2). They are fewer than 2^63.
pub fn a_way_leads_to_what_its_expression_means()
    ensures value { (p : Program) (e : Expr) (env : Env) (w : Way) (k : ℕ) →
        way_of e env.focus ≡ Some w → is_walked w ≡ true → has_place w.from ≡ true →
        outcome p e env k ≡ Ends (map Node (way_nodes w)) k }
    ensures few { (w : Way) → is_walked w ≡ true → has_place w.from ≡ true →
        length (map Node (way_nodes w)) < 2 ^ 63 }
{}
