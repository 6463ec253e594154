// What instructions mean, in the words of the Recommendation.
ghost use Rattle.std.specs.Prelude.{◌≡◌, ℕ, zero, List, [], Option, Some, None, slice_get};
ghost use Rattle.xt_names.specs.declared.names.Name.{Name};
ghost use Rattle.xt_tree.specs.declared.attributes.Attribute.{Attribute};
ghost use Rattle.xt_tree.specs.Forest.{Forest};
ghost use Rattle.xt_tree.specs.Place.{Place, subtree_of};
ghost use Rattle.xt_tree.specs.declared.trees.Tree.{Tree};
ghost use Rattle.xt_tree.specs.declared.trees.Tree.TheVariants.{Attr, Comment, Doc, Elem, Pi, Text};
ghost use Rattle.xt_atoms.specs.declared.atoms.Atom.{Atom as AtomValue};
ghost use Rattle.xdm_items.specs.declared.items.Item.{Item};
ghost use Rattle.xdm_items.specs.declared.items.Item.TheVariants.{Node};
ghost use Rattle.node_builder.specs.Answers.{root_place as new_root};
ghost use Rattle.doc_set.specs.Sets.{DocumentSet};
ghost use Rattle.xt_sheets.specs.declared.sheets.KeyRule.{KeyRule};
ghost use Rattle.xt_sheets.specs.declared.sheets.Rule.{Rule};
ghost use Rattle.xt_sheets.specs.declared.sheets.Sheet.{Sheet};
ghost use Rattle.xt_sheets.specs.declared.values.ModeUse.{ModeUse};
ghost use Rattle.expr_meaning.specs.Outcomes.Outcome.{Deep, Ends, and_then, step_outcome, for_each};
ghost use Rattle.expr_meaning.specs.SortMeaning.Sorted.{places};
ghost use Rattle.expr_meaning.specs.Env.{Binding, Env, Meaning};
ghost use Rattle.transform_meaning.specs.Bindings.{BoundMeaning};
ghost use Rattle.transform_meaning.specs.Dispatch.{Doors, apply_of, child_items, entered_at};
ghost use Rattle.transform_meaning.specs.Dispatch.{mode_of, passed_of, selection_of};
ghost use Rattle.transform_meaning.specs.Keys.{found_in, given_trees, keys_of};
ghost use Rattle.transform_meaning.specs.Making.{new_text};
ghost use Rattle.transform_meaning.specs.Places.{among, entry, in_turn};
ghost use Rattle.transform_meaning.specs.Sorting.{each_of, sorted_of};
ghost use Rattle.transform_meaning.specs.Templates.{Run, doors_at, entered};

/// Without sort keys xsl:for-each takes the items in the order in which they are selected, of which
/// there are at most 2^63-1 (XSLT 2.0, 7).
pub fn without_sort_keys_items_are_taken_in_order()
    ensures { (select body : Meaning) (env : Env) (k : ℕ) → each_of select [] body env k
        ≡ and_then (select env k) (λ xs j. and_then (step_outcome (places xs) j)
        (for_each (λ f. body (in_turn env f)))) }
{}

/// Without sort keys templates are applied to the nodes in the order in which they are selected, once
/// the parameters are evaluated (XSLT 2.0, 6.3).
pub fn without_sort_keys_templates_are_applied_in_order()
    ensures { (rules : List Rule) (doors : Doors) (select : Option Meaning) (mode : ModeUse)
        (params : List BoundMeaning) (env : Env) (k : ℕ) →
        apply_of rules doors select mode [] params env k
        ≡ and_then (selection_of select env k) (λ xs j. and_then (step_outcome (places xs) j) (λ fs i.
        and_then (passed_of params env i) (λ passed.
        for_each (entered_at rules doors (mode_of mode env) passed) fs))) }
{}

/// Without sort keys xsl:perform-sort gives the items as they are, however many they are (XSLT 2.0,
/// 13.2).
pub fn without_sort_keys_perform_sort_gives_the_items_as_they_are()
    ensures { (source : Meaning) → sorted_of source [] ≡ source }
{}

/// Where there is no rule for a node, whichever of how many it is, documents and elements go on to
/// their children, each by its best rule in the same mode, with the same parameters and tunnel
/// parameters; texts and attributes give their text; comments and processing instructions give
/// nothing (XSLT 2.0, 6.6).
pub fn nodes_without_rules_go_by_those_that_are_built_in()
    ensures documents { (sheet : Sheet) (doors : Doors) (passed tunnel : List Binding) (mode : ℕ)
        (n : Place) (place size : ℕ) (kids : Forest) (k : ℕ) → subtree_of n ≡ Some (Doc kids) →
        entered sheet doors passed (entry (Some (among place size (Node n))) None mode tunnel) k
        ≡ and_then (step_outcome (places (child_items n)) k) (for_each (entered_at sheet.rules doors
        mode (record { ordinary = passed; tunnel = tunnel }))) }
    ensures elements { (sheet : Sheet) (doors : Doors) (passed tunnel : List Binding) (mode : ℕ)
        (n : Place) (place size : ℕ) (name : Name) (attributes : List Attribute) (kids : Forest)
        (k : ℕ) →
        subtree_of n ≡ Some (Elem name attributes kids) →
        entered sheet doors passed (entry (Some (among place size (Node n))) None mode tunnel) k
        ≡ and_then (step_outcome (places (child_items n)) k) (for_each (entered_at sheet.rules doors
        mode (record { ordinary = passed; tunnel = tunnel }))) }
    ensures texts { (sheet : Sheet) (doors : Doors) (passed tunnel : List Binding) (mode : ℕ)
        (n : Place) (place size : ℕ) (t : List ℕ) (k : ℕ) → subtree_of n ≡ Some (Text t) →
        entered sheet doors passed (entry (Some (among place size (Node n))) None mode tunnel) k
        ≡ new_text t k }
    ensures attributes { (sheet : Sheet) (doors : Doors) (passed tunnel : List Binding) (mode : ℕ)
        (n : Place) (place size : ℕ) (name : Name) (t : List ℕ) (k : ℕ) →
        subtree_of n ≡ Some (Attr name t) →
        entered sheet doors passed (entry (Some (among place size (Node n))) None mode tunnel) k
        ≡ new_text t k }
    ensures comments { (sheet : Sheet) (doors : Doors) (passed tunnel : List Binding) (mode : ℕ)
        (n : Place) (place size : ℕ) (t : List ℕ) (k : ℕ) → subtree_of n ≡ Some (Comment t) →
        entered sheet doors passed (entry (Some (among place size (Node n))) None mode tunnel) k ≡ Ends [] k }
    ensures instructions { (sheet : Sheet) (doors : Doors) (passed tunnel : List Binding) (mode : ℕ)
        (n : Place) (place size : ℕ) (target t : List ℕ) (k : ℕ) → subtree_of n ≡ Some (Pi target t) →
        entered sheet doors passed (entry (Some (among place size (Node n))) None mode tunnel) k ≡ Ends [] k }
{}

/// Where no call is left, a rule, a built-in one as well, and a named template need one (XSLT 2.0,
/// 6.6 and 10.1).
pub fn without_calls_left_templates_need_one()
    ensures rules { (run : Run) (globals passed : List Binding) (env : Env) (k : ℕ) →
        (doors_at run globals zero).enter passed env k ≡ Deep }
    ensures named { (run : Run) (globals passed : List Binding) (place : ℕ) (env : Env) (k : ℕ) →
        (doors_at run globals zero).named place passed env k ≡ Deep }
{}

/// key() finds nodes of the tree in which the focus node stands: of a given tree, or of one that was
/// made and has a number that no given tree has (XSLT 2.0, 16.3).
pub fn keys_are_looked_up_in_the_tree_of_the_node()
    ensures given { (document tree : Tree) (documents : DocumentSet) (keys : List KeyRule)
        (name : List ℕ) (values : List AtomValue) (n k : ℕ) →
        slice_get (given_trees document documents) n ≡ Some tree →
        keys_of document documents keys name values (new_root n tree) k
        ≡ found_in documents keys name values (new_root n tree) k }
    ensures made { (document : Tree) (documents : DocumentSet) (keys : List KeyRule)
        (name : List ℕ) (values : List AtomValue) (root : Place) (k : ℕ) →
        slice_get (given_trees document documents) root.number ≡ None →
        keys_of document documents keys name values root k
        ≡ found_in documents keys name values root k }
{}
