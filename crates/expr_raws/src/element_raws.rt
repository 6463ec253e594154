//! Computed constructors and direct elements as raw values, and the tokens that spell them (XQuery
//! 1.0, 3.7). Definitions and laws alone.
//!
//! A name stands with its own prefix. Characters of content and of values of attributes stand so in
//! the text, are doubled, or are references. An element within another one is a direct element
//! with another first token.

ghost use Rattle.std.specs.Prelude.{◌≡◌, ◌++◌, ℕ, List, Bool, true, false};
ghost use Rattle.expr_raws.specs.ExprPrimaries.ExprElements.Space.{joined_from};
ghost use Rattle.expr_raws.specs.ExprPrimaries.declared.expr_elements.space.Piece.{Piece};
ghost use Rattle.expr_raws.specs.ElementRaws.Runs.{runs, pieces};

/// The runs of characters are read as the characters, where boundary white space stays.
/// (XQuery 1.0, 3.7.1.4)
pub fn runs_are_read()
    ensures { (in_value : Bool) (cs text : List ℕ) (b : Bool) (ps : List Piece)
        → joined_from false text b (pieces (runs in_value cs) ++ ps)
        ≡ joined_from false (text ++ cs) true ps }
{}
