//! The steps of patterns, each read of its own tokens alone (XSLT 2.0, 5.5.2). Laws alone.
//!
//! The grammar reads a step in front of what comes after it. The proofs cut that off, so that
//! what is known of whole expressions is known of each step of a pattern.

ghost use Rattle.std.specs.Prelude.{◌≡◌, List, [], true};
ghost use Rattle.expr_grammar.specs.Grammar.{Derives, Spells};
ghost use Rattle.expr_keys.specs.declared.productions.Language.TheVariants.{Xpath as xpath};
ghost use Rattle.expr_keys.specs.declared.productions.Nonterminal.TheVariants.{StepExpr as step_expr};
ghost use Rattle.expr_terms.specs.declared.raws.Raw.{Raw};
ghost use Rattle.expr_keys.specs.declared.tokens.Token.{Token};
ghost use Rattle.closed_texts.specs.PatternCuts.Steps.{AreAlternatives};
ghost use Rattle.pattern_forms.specs.PatternShapes.Shapes.{is_pattern};
ghost use Rattle.pattern_syntax.specs.Parts.{alternatives};
ghost use Rattle.sound_expressions.specs.SoundForms.Sound.{are_sound};

/// Of a pattern that sound tokens spell, each alternative has the shape of one, and each step of it
/// is read, as a step, of sound tokens alone (XSLT 2.0, 5.5.2).
pub fn steps_of_patterns_are_read()
    ensures { (ts : List Token) (v : Raw) → Spells xpath ts v → are_sound ts ≡ true
        → is_pattern v ≡ true → AreAlternatives (alternatives v) }
{}

/// What is read as a step alone is a whole expression (XPath 2.0, 3.2).
pub fn steps_are_expressions()
    ensures { (ts : List Token) (v : Raw) → Derives xpath step_expr ts v [] → Spells xpath ts v }
{}
