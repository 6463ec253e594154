//! The tokens and pieces that the text of a query is parted into (XQuery 1.0, 3.7.1 and A.2). Laws
//! alone.
//!
//! Whatever the text is, its tokens have texts and names that XML allows, since each token and
//! piece is of characters that may be in it; and each takes as many characters as it weighs.
#![tactic(auto)]

ghost use Rattle.std.specs.Prelude.{◌≡◌, ◌≤◌, ℕ, List, length, true};
ghost use Rattle.expr_length.specs.Weights.{weight};
ghost use Rattle.expr_keys.specs.declared.tokens.Token.{Token};
ghost use Rattle.query_pieces.specs.Points.{Point};
ghost use Rattle.query_pieces.specs.Readings.{Splits};
ghost use Rattle.sound_expressions.specs.SoundForms.Sound.{are_sound};

/// The tokens and pieces of a text are sound: their texts are of characters of XML, and their names
/// can be written.
/// (XML 1.0, 2.2; Namespaces in XML 1.0, 3; XQuery 1.0, 3.1.1, 3.7.1 and A.2)
pub fn tokens_are_sound()
    ensures { (p : Point) (ts : List Token) → Splits p ts → are_sound ts ≡ true }
{}

/// The tokens and pieces of a text weigh no more than it has characters, where `//` weighs two and
/// each other one.
/// (XQuery 1.0, 3.2, 3.7.1 and A.2)
pub fn tokens_weigh_no_more()
    ensures { (p : Point) (ts : List Token) → Splits p ts → weight ts ≤ length p.rest }
{}
