//! Which template rule a node gets (XSLT 2.0, 6.4 and 6.7): definitions and laws alone, nothing runs.
//!
//! The best rule is the greatest of those that stand in the mode and match the node, by import
//! precedence, then priority, then place. It is looked for among all rules, among those below the
//! current rule, or among those of the levels that are imported into its level.
//!
//! Example: of two rules of one level for `a` without a priority the later one is the best.
#![tactic(auto)]

ghost use Rattle.std.specs.Prelude.{◌≡◌, ℕ, List, Some, find};
ghost use Rattle.xt_tree.specs.Place.{Place};
ghost use Rattle.xt_sheets.specs.declared.sheets.Rule.{Rule};
ghost use Rattle.rule_order.specs.Rules.{Ranked, RuleSet, best_place, best_rule};
ghost use Rattle.rule_order.specs.Laws.{AreCandidates, IsBest, IsBestIfAny, fits_at};

/// The best rule of a set is one that matches and than which no other that matches is greater; there
/// is none exactly where none matches (XSLT 2.0, 6.4).
pub fn the_best_rule_is_the_greatest()
    ensures { (set : RuleSet) (rules : List Rule) (mode : ℕ) (n : Place) →
        IsBestIfAny set rules mode n (best_rule set rules mode n) }
{}

/// There is one such rule (XSLT 2.0, 6.4).
pub fn there_is_one_best_rule()
    ensures { (set : RuleSet) (rules : List Rule) (mode : ℕ) (n : Place) (r : Ranked) →
        IsBest set rules mode n r → best_rule set rules mode n ≡ Some r }
{}

/// The first of the candidates whose rule fits is the best rule (XSLT 2.0, 6.4).
pub fn the_first_candidate_that_fits_is_the_best()
    ensures { (set : RuleSet) (rules : List Rule) (mode : ℕ) (n : Place) (places : List ℕ) →
        AreCandidates set rules mode n places →
        find (fits_at rules mode n) places ≡ best_place set rules mode n }
{}
