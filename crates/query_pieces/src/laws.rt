// A text is read in one way.
ghost use Rattle.std.specs.Prelude.{◌≡◌, ◌<◌, ◌⊎◌, ℕ, List, length, Bool, true, false};
ghost use Rattle.expr_keys.specs.declared.keys.Key.TheVariants.{Less as less};
ghost use Rattle.expr_keys.specs.declared.tokens.Token.{Token};
ghost use Rattle.expr_keys.specs.declared.tokens.Token.TheVariants as token;
ghost use Rattle.query_pieces.specs.Points.{Point};
ghost use Rattle.query_pieces.specs.Readings.{Reads, IsEnd};

/// At a point, and given whether an operand may be there, at most one token or piece may be
/// read, in one way, and none at the end of the text. Where an operand may stand and where none
/// may, the same is read, but that `<` may be the front of a direct element in the one case and is
/// the operator in the other. Each token and each piece takes something of the text.
pub fn reads_one()
    ensures one { (operand : Bool) (p : Point) (t u : Token) (q r : Point)
        → Reads operand p t q → Reads operand p u r → (t ≡ u) × (q ≡ r) }
    ensures ends { (operand : Bool) (p : Point) (t : Token) (q : Point)
        → Reads operand p t q → IsEnd p → ⊥ }
    ensures shorter { (operand : Bool) (p : Point) (t : Token) (q : Point)
        → Reads operand p t q → length q.rest < length p.rest }
    ensures modes { (p : Point) (t u : Token) (q r : Point)
        → Reads true p t q → Reads false p u r
        → ((t ≡ u) × (q ≡ r)) ⊎ ((prefix local : List ℕ)
        × (t ≡ token.StartTagOpen prefix local) × (u ≡ token.Key less)) }
{}
