//! The ways to part the text of a query into tokens and pieces of direct elements, as one list
//! (XQuery 1.0, 3.7.1 and A.2). Laws alone.
//!
//! query_pieces says by relations which token or piece may come next and how a text is parted. Here
//! the same are functions, so that what a text spells can be a function of the text too.
//!
//! Example: `$a <b` is parted in two ways: with the operator `<`, and with the front of an element.

ghost use Rattle.std.specs.Prelude.{◌≡◌, ◌↔◌, ℕ, List, Contains, Bool, true, Some};
ghost use Rattle.expr_keys.specs.declared.tokens.Token.{Token};
ghost use Rattle.query_pieces.specs.Points.{Point, start};
ghost use Rattle.query_pieces.specs.Literals.{Says};
ghost use Rattle.query_pieces.specs.Readings.{Reads, IsEnd, Splits};
ghost use Rattle.query_readings.specs.QueryPartings.Said.{said_of};
ghost use Rattle.query_readings.specs.QueryPartings.Nexts.{is_end, next_at};
ghost use Rattle.query_readings.specs.QueryPartings.Partings.{partings};

/// What a literal says is what the function gives (XQuery 1.0, 2.3.1 and 3.1.1).
pub fn literals_say_so()
    ensures { (text said : List ℕ) → Says text said ↔ (said_of text ≡ Some said) }
{}

/// The tokens and pieces of the list are those that may come next, where an operand may stand and
/// where none may; and the text is over where the test says so (XQuery 1.0, 3.7.1 and A.2).
pub fn lists_what_comes_next()
    ensures next { (p q : Point) (t : Token) → ((operand : Bool) × Reads operand p t q)
        ↔ Contains (next_at p) (t, q) }
    ensures over { (p : Point) → IsEnd p ↔ (is_end p ≡ true) }
{}

/// The list has just the ways to part the text (XQuery 1.0, 3.7.1 and A.2).
pub fn lists_each_way()
    ensures { (text : List ℕ) (ts : List Token) → Splits (start text) ts ↔ Contains (partings text) ts }
{}
