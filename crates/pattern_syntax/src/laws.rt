// What texts spell.
ghost use Rattle.std.specs.Prelude.{◌≡◌, ◌↔◌, ℕ, List, Option, map, true, false};
ghost use Rattle.xt_syntax.specs.declared.patterns.Pattern.{Pattern};
ghost use Rattle.expr_terms.specs.declared.raws.Raw.{Raw};
ghost use Rattle.expr_terms.specs.Nest.{raw_nest_of};
ghost use Rattle.expr_keys.specs.declared.tokens.Token.{Token};
ghost use Rattle.expr_keys.specs.declared.productions.Language.{Language};
ghost use Rattle.expr_keys.specs.declared.productions.Nonterminal.TheVariants.{NodeTest as node_test};
ghost use Rattle.expr_grammar.specs.Grammar.{Derives};
ghost use Rattle.expr_grammar.specs.ExprNest.Measures.{predicate_nest_of};
ghost use Rattle.expr_resolve.specs.declared.setting.Setting.{Setting};
ghost use Rattle.expr_resolve.specs.Folds.{broken_of};
ghost use Rattle.expr_tokens.specs.Terms.{Written};
ghost use Rattle.xpath_syntax.specs.Spelled.{IsWritten};
ghost use Rattle.pattern_forms.specs.PatternShapes.Shapes.{is_pattern};
ghost use Rattle.pattern_syntax.specs.Meant.{pattern_broken};
ghost use Rattle.pattern_syntax.specs.Predicates.{deepest, pattern_parts};
ghost use Rattle.pattern_syntax.specs.Readings.{IsLexed, pattern_reading, value};
ghost use Rattle.pattern_syntax.specs.Readings.{begins_with_key};
ghost use Rattle.pattern_syntax.specs.Spelled.{Spells, SpellsWithin};

/// A text has one list of tokens at most, and spells one list of alternatives at most.
pub fn spells_one()
    ensures lexed { (text : List ℕ) (a b : Option (List Written)) → IsLexed text a
        → IsLexed text b → a ≡ b }
    ensures one { (s : Setting) (text : List ℕ) (a b : List Pattern) → Spells s text a
        → Spells s text b → a ≡ b }
{}

/// The reading of a text gives the alternatives exactly where it spells them within the limit.
pub fn reads_what_is_spelled()
    ensures { (s : Setting) (k : ℕ) (text : List ℕ) (tokens : Option (List Written))
        (ps : List Pattern)
        → IsLexed text tokens
        → SpellsWithin s k text ps ↔ (pattern_reading s k tokens ≡ value ps) }
{}

/// The rules that the steps of a pattern break, in reading order, are those that it breaks as an
/// expression.
pub fn breaks_what_its_steps_break()
    ensures { (s : Setting) (raw : Raw) → is_pattern raw ≡ true
        → pattern_broken s raw ≡ broken_of s raw }
{}

/// The levels within the predicates of a pattern are those of the deepest part of its steps. Of
/// these parts a test has no level, nor has a token, as the axis is: so they are those of its
/// deepest predicate.
pub fn a_pattern_nests_as_its_predicates()
    ensures parts { (raw : Raw) → is_pattern raw ≡ true
        → predicate_nest_of raw ≡ deepest (pattern_parts raw) }
    ensures tests { (l : Language) (ts rest : List Token) (v : Raw)
        → Derives l node_test ts v rest → raw_nest_of v ≡ 0 }
{}

/// No pattern begins with `key(` or `id(`: a text that does is refused for that form alone, and no
/// pattern of another form is refused with it (XSLT 2.0, 5.5.2).
pub fn no_pattern_begins_with_key()
    ensures { (tokens : List Written) (raw : Raw) → IsWritten tokens raw → is_pattern raw ≡ true
        → begins_with_key tokens ≡ false }
{}
