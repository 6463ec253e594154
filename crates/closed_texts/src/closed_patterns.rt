//! What texts of stylesheets mean as patterns that break no rule: alternatives that a closed
//! stylesheet may have (XSLT 2.0, 5.5.2). Laws alone.
//!
//! The proofs take each step of the pattern as it is read of its own tokens, and know of it what is
//! known of expressions: so a step is regular, of XPath, and nests no deeper than it is written.

ghost use Rattle.std.specs.Prelude.{◌≡◌, ℕ, List, [], true};
ghost use Rattle.std.specs.List.{list_all};
ghost use Rattle.closed_sheets.specs.Values.{is_good_pattern};
ghost use Rattle.sheet_language.specs.Language.{patterns_faults, patterns_value};
ghost use Rattle.sheet_values.specs.declared.sheet_texts.places.StaticContext.{StaticContext};
ghost use Rattle.sound_expressions.specs.SoundForms.Sound.{SoundBindings};
ghost use Rattle.sheet_closure.specs.StandingParts.Patterns.{is_alternative};

/// Of a pattern in a stylesheet that breaks no rule, where prefixes are bound as XML allows, each
/// test has names that XML allows and each predicate is a regular expression of XPath; and each
/// alternative is one that texts of patterns spell, of at most 40 levels (XSLT 2.0, 5.5.2).
pub fn unbroken_patterns_are_closed()
    ensures good { (p : StaticContext) (text : List ℕ) → SoundBindings p.bound → patterns_faults p text ≡ []
        → list_all is_good_pattern (patterns_value p text) ≡ true }
    ensures stands { (p : StaticContext) (text : List ℕ) → SoundBindings p.bound
        → patterns_faults p text ≡ [] → list_all is_alternative (patterns_value p text) ≡ true }
{}
