// What texts spell.
ghost use Rattle.std.specs.Prelude.{◌≡◌, ◌↔◌, ℕ, List, Some, Result};
ghost use Rattle.xt_syntax.specs.declared.prefixes.ParseFault.{ParseFault};
ghost use Rattle.xt_syntax.specs.declared.queries.Query.{Query};
ghost use Rattle.query_grammar.specs.declared.declared.RawQuery.{RawQuery};
ghost use Rattle.query_texts.specs.Texts.{SpellsText};
ghost use Rattle.xquery_syntax.specs.Answers.{value, Gives};
ghost use Rattle.xquery_syntax.specs.Spelled.{Parsed, SpellsWithin};
ghost use Rattle.query_readings.specs.Readings.{raw_query, query_reading};

/// What a text is read as is what it spells, in whatever way it is parted (XQuery 1.0, 4 and A).
pub fn reads_what_is_written()
    ensures { (text : List ℕ) (raw : RawQuery) → SpellsText text raw ↔ (raw_query text ≡ Some raw) }
{}

/// An answer is right of a text exactly where it is that of the reading, or memory ran out (XQuery
/// 1.0, 2.3.1, 4 and A).
pub fn answers_the_reading()
    ensures { (k : ℕ) (text : List ℕ) (r : Result Query ParseFault)
        → Parsed r k text ↔ Gives r (query_reading k text) }
{}

/// The reading of a text gives a query exactly where the text spells it within the limit (XQuery
/// 1.0, 4 and A).
pub fn reads_what_is_spelled()
    ensures { (k : ℕ) (text : List ℕ) (q : Query)
        → SpellsWithin k text q ↔ (query_reading k text ≡ value q) }
{}
