// A text is read in one way.
ghost use Rattle.std.specs.Prelude.{◌≡◌, ℕ, List, Bool};
ghost use Rattle.xpath_lex.specs.Readings.{Placed, TokenAt, IsOver, FaultAt, Tokens, Fault};

/// At most one token is at a place, and it leaves the same after it; where one stands the text
/// is not over, and where none begins neither is true, and the place of that is one.
pub fn tokens_are_one()
    ensures one { (total : ℕ) (behind : Bool) (ts : List ℕ) (t u : Placed) (x y : List ℕ)
        → TokenAt total behind ts t x → TokenAt total behind ts u y → (t ≡ u) × (x ≡ y) }
    ensures token { (total : ℕ) (behind : Bool) (ts : List ℕ) (t : Placed) (x : List ℕ)
        → TokenAt total behind ts t x → IsOver behind ts → ⊥ }
    ensures places { (total : ℕ) (behind : Bool) (ts : List ℕ) (p q : ℕ)
        → FaultAt total behind ts p → FaultAt total behind ts q → p ≡ q }
    ensures fault { (total : ℕ) (behind : Bool) (ts : List ℕ) (p : ℕ) (t : Placed) (x : List ℕ)
        → FaultAt total behind ts p → TokenAt total behind ts t x → ⊥ }
    ensures some { (total : ℕ) (behind : Bool) (ts : List ℕ) (p : ℕ)
        → FaultAt total behind ts p → IsOver behind ts → ⊥ }
{}

/// A text has at most one list of tokens, or one place where no token begins, and not both.
pub fn lists_are_one()
    ensures one { (total : ℕ) (behind : Bool) (ts : List ℕ) (us vs : List Placed)
        → Tokens total behind ts us → Tokens total behind ts vs → us ≡ vs }
    ensures places { (total : ℕ) (behind : Bool) (ts : List ℕ) (p q : ℕ)
        → Fault total behind ts p → Fault total behind ts q → p ≡ q }
    ensures apart { (total : ℕ) (behind : Bool) (ts : List ℕ) (us : List Placed) (p : ℕ)
        → Tokens total behind ts us → Fault total behind ts p → ⊥ }
{}
