ghost use Rattle.std.specs.Prelude.{◌≡◌, List, true};
ghost use Rattle.xt_types.specs.declared.node_tests.SpaceRule.{SpaceRule as AnyRule};
ghost use Rattle.xt_tree.specs.declared.trees.Tree.{Tree as AnyTree};
ghost use Rattle.xt_tree.specs.Sound.{is_sound_tree};
ghost use Rattle.doc_set.specs.WhiteSpace.Stripped.{stripped};

/// A sound tree stays sound when white space is stripped from it (XSLT 2.0, 4.4).
pub fn stripped_trees_are_sound()
    ensures { (rules : List AnyRule) (t : AnyTree) → is_sound_tree t ≡ true → is_sound_tree (stripped rules t) ≡ true }
{}
