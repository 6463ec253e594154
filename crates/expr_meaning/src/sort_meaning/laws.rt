// What holds of values in the order of their keys.
ghost use Rattle.std.specs.Prelude.{◌≡◌, ℕ, List, [], map};
ghost use Rattle.xt_names.specs.declared.codes.Code.{Code};
ghost use Rattle.expr_meaning.specs.Outcomes.Outcome.{Outcome, and_then, step_outcome, for_each};
ghost use Rattle.expr_meaning.specs.SortMeaning.Sorted.{Column, Placed, places, visit, all_moved, placed_as};

/// To visit values in the order of their keys is to visit whatever they are made of: groups by
/// their keys, or nodes by what a stylesheet says of them (XSLT 2.0, 13 and 14).
pub fn values_are_visited_by_their_keys<A, B, C>()
    ensures { (h : A → B) (mixed : Code) (cs : List (Column (Placed B)))
        (body : Placed B → ℕ → Outcome (List C)) (xs : List A) (k : ℕ) →
        visit mixed cs body (map h xs) k
        ≡ visit mixed (all_moved (placed_as h) cs) (λ f. body (placed_as h f)) xs k }
{}

/// Without sort keys values are visited as they stand, each with its place, of which there are at
/// most 2^63-1.
pub fn without_keys_values_are_visited_as_they_stand<A, B>()
    ensures { (mixed : Code) (body : Placed A → ℕ → Outcome (List B)) (xs : List A) (k : ℕ) →
        visit mixed [] body xs k ≡ and_then (step_outcome (places xs) k) (for_each body) }
{}
