// A text spells one query.
ghost use Rattle.std.specs.Prelude.{◌≡◌, ℕ, List};
ghost use Rattle.query_grammar.specs.declared.declared.RawQuery.{RawQuery};
ghost use Rattle.query_texts.specs.Texts.{SpellsText};

/// A text spells at most one query, in whatever way it is parted.
/// (XQuery 1.0, 4, A.1 and A.2)
pub fn spells_one()
    ensures { (text : List ℕ) (a b : RawQuery) → SpellsText text a → SpellsText text b → a ≡ b }
{}
