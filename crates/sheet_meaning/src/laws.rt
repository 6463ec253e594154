// What the definitions say in the words of the Recommendation. Each law is what an empty function ensures.
ghost use Rattle.std.specs.Prelude.{◌≡◌, ℕ, ◌≤◌, List, true};
ghost use Rattle.xt_tree.specs.declared.trees.Tree.{Tree};
ghost use Rattle.xt_tree.specs.Forest.{texts};
ghost use Rattle.xt_tree.specs.Sound.{is_sound_tree};
ghost use Rattle.xt_tree.specs.TreeView.{forest_of};
ghost use Rattle.sheet_meaning.specs.Outcome.{Ends, IsOver};
ghost use Rattle.sheet_meaning.specs.Rules.{Template, best_rule, IsBestRule};
ghost use Rattle.sheet_meaning.specs.Meaning.{complex_content, transform_meaning};

/// What is over within a depth is the same within every greater depth.
pub fn deeper_runs_end_alike()
    ensures { (sheet document : Tree) (m n : ℕ) → m ≤ n → IsOver (transform_meaning sheet document m)
        → transform_meaning sheet document n ≡ transform_meaning sheet document m }
{}

/// The best rule is the last template that matches, and there is none exactly where none matches (XSLT 2.0, 6.4).
pub fn last_match_is_best()
    ensures { (templates : List Template) (node : Tree) → IsBestRule templates node (best_rule templates node) }
{}

/// Complex content has the characters of its items' texts, in their order (XSLT 2.0, 5.7.1).
pub fn content_keeps_texts()
    ensures { (items : List Tree) → texts (forest_of (complex_content items)) ≡ texts (forest_of items) }
{}

/// The result of a sound stylesheet on a sound document is sound: no text in it is empty or beside another.
pub fn results_are_sound()
    ensures { (sheet document made : Tree) (n : ℕ) → is_sound_tree sheet ≡ true → is_sound_tree document ≡ true
        → transform_meaning sheet document n ≡ Ends made → is_sound_tree made ≡ true }
{}
