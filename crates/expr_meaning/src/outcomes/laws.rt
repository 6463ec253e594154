// How outcomes go on.
ghost use Rattle.std.specs.Prelude.{◌≡◌, ℕ, List};
ghost use Rattle.expr_meaning.specs.Outcomes.Outcome.{Outcome, and_then, for_each};
ghost use Rattle.expr_meaning.specs.Outcomes.Follow.{Follows, any_code, same_code};

/// Where one computation has more calls left than another and is the same for the rest, so is what
/// goes on from it: the first of two outcomes that fails or is out of calls decides.
pub fn outcomes_with_more_calls_carry_on<A, B>()
    ensures next { (o p : Outcome A) (f g : A → ℕ → Outcome B) → Follows same_code o p →
        ((v : A) (k : ℕ) → Follows same_code (f v k) (g v k)) →
        Follows same_code (and_then o f) (and_then p g) }
    ensures each { (f g : A → ℕ → Outcome (List B)) →
        ((v : A) (k : ℕ) → Follows same_code (f v k) (g v k)) →
        (vs : List A) (k : ℕ) → Follows same_code (for_each f vs k) (for_each g vs k) }
{}

/// The same of a computation that follows another whatever the codes of the two.
pub fn outcomes_with_other_codes_carry_on<A, B>()
    ensures next { (o p : Outcome A) (f g : A → ℕ → Outcome B) → Follows any_code o p →
        ((v : A) (k : ℕ) → Follows any_code (f v k) (g v k)) →
        Follows any_code (and_then o f) (and_then p g) }
    ensures each { (f g : A → ℕ → Outcome (List B)) →
        ((v : A) (k : ℕ) → Follows any_code (f v k) (g v k)) →
        (vs : List A) (k : ℕ) → Follows any_code (for_each f vs k) (for_each g vs k) }
{}

/// What goes on from outcomes in turn may be read from either end.
pub fn outcomes_are_joined_from_either_end<A, B, C>()
    ensures { (o : Outcome A) (f : A → ℕ → Outcome B) (g : B → ℕ → Outcome C) →
        and_then (and_then o f) g ≡ and_then o (λ v k. and_then (f v k) g) }
{}
