//! Expressions of stylesheets, in which the names of keys stand in place of the literals that write
//! them (XSLT 2.0, 5.2 and 16.3). Laws alone.
//!
//! Sound tokens spell such an expression too, it nests no deeper than the one of the text, and each
//! call in what it means may stand where it does.

ghost use Rattle.std.specs.Prelude.{◌≡◌, ◌≤◌, List, [], Bool, Some, true};
ghost use Rattle.closed_sheets.specs.Values.{is_sheet_expr};
ghost use Rattle.expr_grammar.specs.Grammar.{Spells};
ghost use Rattle.expr_resolve.specs.Folds.{broken_of, expr_meant};
ghost use Rattle.expr_resolve.specs.declared.setting.Setting.{Setting};
ghost use Rattle.expr_terms.specs.Nest.{raw_nest_of};
ghost use Rattle.expr_keys.specs.declared.productions.Language.TheVariants.{Xpath as xpath};
ghost use Rattle.expr_terms.specs.declared.raws.Raw.{Raw};
ghost use Rattle.expr_keys.specs.declared.tokens.Token.{Token};
ghost use Rattle.sheet_expressions.specs.Checked.{checked};
ghost use Rattle.sound_expressions.specs.SoundForms.Sound.{are_sound, SoundBindings, SoundPrefixes};
ghost use Rattle.sheet_closure.specs.StandingParts.Calls.{calls_stand, expr_stands};

/// Sound tokens that spell an expression spell it, as other sound ones, with the names of keys in
/// place of the literals that write them, under prefixes that XML allows (XSLT 2.0, 16.3).
pub fn named_keys_are_spelled()
    ensures { (s : Setting) (grouped : Bool) (ts : List Token) (v w : Raw)
        → SoundBindings s.prefixes.bound → are_sound ts ≡ true → Spells xpath ts v
        → checked s.prefixes grouped v ≡ Some w
        → (us : List Token) × (are_sound us ≡ true) × Spells xpath us w }
{}

/// It nests no deeper than the one that is written (XSLT 2.0, 16.3).
pub fn named_keys_nest_no_deeper()
    ensures { (s : Setting) (grouped : Bool) (v w : Raw) → SoundBindings s.prefixes.bound
        → checked s.prefixes grouped v ≡ Some w → raw_nest_of w ≤ raw_nest_of v }
{}

/// Each call in what it means may be within an xsl:for-each-group or outside of one, wherever it
/// is (XSLT 2.0, 14.1, 16.3 and 16.6).
pub fn calls_may_stand()
    ensures { (s : Setting) (grouped : Bool) (ts : List Token) (v w : Raw)
        → SoundBindings s.prefixes.bound → Spells xpath ts v → checked s.prefixes grouped v ≡ Some w
        → broken_of s w ≡ [] → calls_stand grouped (expr_meant s w) ≡ true }
{}

/// Where the one that is written nests at most 40 levels, what it means is a regular expression of
/// XPath, with texts and names that XML allows, and may be there (XSLT 2.0, 5.2).
pub fn named_expressions_are_closed()
    ensures good { (s : Setting) (grouped : Bool) (ts : List Token) (v w : Raw)
        → SoundPrefixes s.prefixes → are_sound ts ≡ true → Spells xpath ts v → raw_nest_of v ≤ 40
        → checked s.prefixes grouped v ≡ Some w → broken_of s w ≡ []
        → is_sheet_expr (expr_meant s w) ≡ true }
    ensures stands { (s : Setting) (grouped : Bool) (ts : List Token) (v w : Raw)
        → SoundPrefixes s.prefixes → are_sound ts ≡ true → Spells xpath ts v → raw_nest_of v ≤ 40
        → checked s.prefixes grouped v ≡ Some w → broken_of s w ≡ []
        → expr_stands grouped (expr_meant s w) ≡ true }
{}
