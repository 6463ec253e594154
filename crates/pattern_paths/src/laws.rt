// What the tests of patterns tell.
ghost use Rattle.std.specs.Prelude.{◌≡◌, ℕ, List, [], ◌∷◌, Some};
ghost use Rattle.std.specs.List.{list_any};
ghost use Rattle.xt_names.specs.declared.codes.Code.TheVariants.{Dynamic};
ghost use Rattle.xt_names.specs.declared.codes.DynamicCode.TheVariants.{XPTY0019};
ghost use Rattle.xt_tree.specs.Place.{Place};
ghost use Rattle.xt_syntax.specs.declared.patterns.Pattern.{Pattern};
ghost use Rattle.xt_atoms.specs.declared.atoms.Atom.{Atom as AtomValue};
ghost use Rattle.xdm_items.specs.declared.items.Item.TheVariants.{Node, Atom};
ghost use Rattle.match_patterns.specs.Patterns.{pattern_matches};
ghost use Rattle.expr_meaning.specs.Outcomes.Outcome.{Ends, Every, Fails};
ghost use Rattle.expr_meaning.specs.Env.{Env, Program, look_up};
ghost use Rattle.expr_meaning.specs.Logic.{truth_at};
ghost use Rattle.expr_meaning.specs.Meaning.{outcome};
ghost use Rattle.meaning_laws.specs.SoundValues.Sound.{IsSound};
ghost use Rattle.carried_exprs.specs.Sights.{item_name};
ghost use Rattle.pattern_paths.specs.Matching.{any_match_test, match_test};
ghost use Rattle.pattern_paths.specs.Properties.{IsUsable};

/// In every program, and so with however many calls left, the truth value of a pattern's test is
/// whether the pattern matches the node that `$x:item` holds. It ends and takes no number of a tree
/// (XSLT 2.0, 5.5.3).
pub fn the_test_of_a_pattern_is_true_where_it_matches()
    ensures one { (q : Program) (p : Pattern) → IsUsable p → (env : Env) (n : Place) →
        IsSound (Node n) → look_up env.locals item_name ≡ Some (Node n ∷ []) → (k : ℕ) →
        truth_at (outcome q (match_test p)) env k ≡ Ends (pattern_matches p n) k }
    ensures any { (q : Program) (ps : List Pattern) → Every IsUsable ps → (env : Env) (n : Place) →
        IsSound (Node n) → look_up env.locals item_name ≡ Some (Node n ∷ []) → (k : ℕ) →
        truth_at (outcome q (any_match_test ps)) env k
        ≡ Ends (list_any (λ p. pattern_matches p n) ps) k }
{}

/// Where `$x:item` holds an atom the test fails, as a path from an atom does (XPath 2.0, 3.2).
pub fn the_test_of_a_pattern_fails_at_an_atom()
    ensures { (q : Program) (p : Pattern) → IsUsable p → (env : Env) (a : AtomValue) →
        look_up env.locals item_name ≡ Some (Atom a ∷ []) → (k : ℕ) →
        outcome q (match_test p) env k ≡ Fails (Dynamic XPTY0019) }
{}
