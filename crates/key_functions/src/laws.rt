// What the functions of keys find.
ghost use Rattle.std.specs.Prelude.{ℕ, List};
ghost use Rattle.expr_meaning.specs.Env.{Binding, Program};
ghost use Rattle.expr_meaning.specs.Queries.{Run};
ghost use Rattle.doc_set.specs.Sets.{DocumentSet};
ghost use Rattle.expr_meaning.specs.Outcomes.Outcome.{Outcome};
ghost use Rattle.xdm_items.specs.declared.items.Item.{Item};
ghost use Rattle.carried_exprs.specs.Sights.{Setting};
ghost use Rattle.key_functions.specs.Bounds.{KeysFit};
ghost use Rattle.key_functions.specs.Keys.{FindsKeys};
ghost use Rattle.key_functions.specs.Uses.{AreUsed, IsCarriedBothWays, MakesNoTree};

/// Where the tests and values of declarations are in the query what they are in the stylesheet, the
/// function of a key gives, with a call left for it, what is found in the tree of the node, or both
/// fail (XSLT 2.0, 16.3).
pub fn keys_are_found_by_their_functions()
    ensures { (run : Run) (globals : List Binding) (n : ℕ) → FindsKeys run globals n }
{}

/// An expression without constructors makes no tree, and does the same whatever number the next tree
/// has, if all functions that are declared and all keys do so (XPath 2.0, 2.1).
pub fn expressions_without_constructors_make_no_tree()
    ensures { (p : Program) (w : Setting) → MakesNoTree p w }
{}

/// `use` of a key, which names no variable, no key and no function that is declared, is in the query
/// what it is in the stylesheet (XSLT 2.0, 16.3).
pub fn uses_are_carried()
    ensures { (documents : DocumentSet) (q : Program) → AreUsed documents q }
{}

/// What a function of the query gives as the stylesheet does, it gives in both directions.
pub fn the_same_is_carried_both_ways()
    ensures { (o p : Outcome (List Item)) → IsCarriedBothWays o p }
{}

/// The function of a key has the form that the grammar gives, names nothing but what its parts name and
/// its own variables, and nests eight levels more than its parts, where those are so.
pub fn key_functions_fit_into_every_query()
    ensures { KeysFit }
{}
