// What texts are parsed to.
ghost use Rattle.std.specs.Prelude.{◌≡◌, ℕ, List, Result};
ghost use Rattle.xt_syntax.specs.declared.queries.Query.{Query};
ghost use Rattle.xt_syntax.specs.declared.prefixes.ParseFault.{ParseFault};
ghost use Rattle.xquery_syntax.specs.Spelled.{Spells, Parsed, IsSettled};

/// A text spells at most one query.
/// (XQuery 1.0, 4 and A)
pub fn spells_one()
    ensures { (text : List ℕ) (a b : Query) → Spells text a → Spells text b → a ≡ b }
{}

/// Of a text at most one answer is right, unless memory ran out, so each comes exactly where it is.
/// (XQuery 1.0, 2.3.1, 4 and A)
pub fn answers_one()
    ensures { (text : List ℕ) (k : ℕ) (a b : Result Query ParseFault) → Parsed a k text
        → Parsed b k text → IsSettled a → IsSettled b → a ≡ b }
{}
