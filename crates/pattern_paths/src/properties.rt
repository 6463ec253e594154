// What else is known of the tests of patterns.
ghost use Rattle.std.specs.Prelude.{◌≡◌, List, map, Bool, true, ◌+◌, ◌≤◌};
ghost use Rattle.xt_types.specs.declared.node_tests.Test.{Test as AnyTest};
ghost use Rattle.xt_forms.specs.Nest.{nest_of, pattern_nest_of};
ghost use Rattle.xt_names.specs.Lists.{greatest};
ghost use Rattle.xt_syntax.specs.declared.exprs.Expr.{Expr as AnyExpr};
ghost use Rattle.xt_syntax.specs.declared.patterns.Pattern.{Pattern};
ghost use Rattle.expr_meaning.specs.Outcomes.Outcome.{Every};
ghost use Rattle.pattern_paths.specs.Built.{HasParts, IsKept, Passes};
ghost use Rattle.pattern_paths.specs.Matching.{any_match_test, match_test};
ghost use Rattle.pattern_paths.specs.Properties.{HasAllowed, HasSoundTexts, IsRegular, IsRegularTest, IsSoundTest, NamesItem};

/// The test nests at most 14 levels more than the pattern, however many steps it has, and that of
/// alternatives 15.
pub fn tests_of_patterns_nest_little()
    ensures one { (p : Pattern) → nest_of (match_test p) ≤ 14 + pattern_nest_of p }
    ensures any { (ps : List Pattern) →
        nest_of (any_match_test ps) ≤ 15 + greatest (map pattern_nest_of ps) }
{}

/// The test passes each check that its forms keep, where the tests and predicates of the pattern
/// pass it.
pub fn tests_of_patterns_have_what_their_forms_keep()
    ensures one { (f : AnyExpr → Bool) (t : AnyTest → Bool) → IsKept (Passes f) (Passes t) →
        (p : Pattern) → HasParts (Passes f) (Passes t) p → f (match_test p) ≡ true }
    ensures any { (f : AnyExpr → Bool) (t : AnyTest → Bool) → IsKept (Passes f) (Passes t) →
        (ps : List Pattern) → Every (HasParts (Passes f) (Passes t)) ps → f (any_match_test ps) ≡ true }
{}

/// The test has the form that the grammar gives, where the pattern's tests and predicates have it
/// (XPath 2.0, 3).
pub fn tests_of_patterns_are_regular()
    ensures one { (p : Pattern) → HasParts IsRegular IsRegularTest p → IsRegular (match_test p) }
    ensures any { (ps : List Pattern) → Every (HasParts IsRegular IsRegularTest) ps →
        IsRegular (any_match_test ps) }
{}

/// XML allows the texts and names of the test, where it allows those of the pattern.
pub fn tests_of_patterns_have_sound_texts()
    ensures one { (p : Pattern) → HasParts HasSoundTexts IsSoundTest p →
        HasSoundTexts (match_test p) }
    ensures any { (ps : List Pattern) → Every (HasParts HasSoundTexts IsSoundTest) ps →
        HasSoundTexts (any_match_test ps) }
{}

/// The test reads no variable but `$x:item`, and calls functions of the library alone.
pub fn tests_of_patterns_name_the_item_alone()
    ensures one { (p : Pattern) → HasAllowed p → NamesItem (match_test p) }
    ensures any { (ps : List Pattern) → Every HasAllowed ps → NamesItem (any_match_test ps) }
{}
