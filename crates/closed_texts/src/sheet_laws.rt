//! What is known of texts of stylesheets that break no rule. Laws alone.
//!
//! The tokens of a text have names and texts that XML allows, whatever the text is, and a sequence
//! type that breaks no rule is regular, with names that XML allows.

ghost use Rattle.std.specs.Prelude.{◌≡◌, ℕ, List, [], Some, true};
ghost use Rattle.closed_queries.specs.Closed.{is_good_kind};
ghost use Rattle.expr_keys.specs.declared.tokens.Token.{Token};
ghost use Rattle.xpath_syntax.specs.ExprReadings.Readings.{terms_in};
ghost use Rattle.sheet_language.specs.Language.{type_faults, type_value};
ghost use Rattle.sheet_values.specs.declared.sheet_texts.places.StaticContext.{StaticContext};
ghost use Rattle.sound_expressions.specs.SoundForms.Sound.{SoundBindings, are_sound};

/// The tokens of a text of XPath are sound: their texts are of characters of XML, and their names
/// can be written (XML 1.0, 2.2; Namespaces in XML 1.0, 3; XPath 2.0, A.2).
pub fn tokens_are_sound()
    ensures { (text : List ℕ) (ts : List Token) → terms_in text ≡ Some ts → are_sound ts ≡ true }
{}

/// A sequence type in a stylesheet that breaks no rule, where prefixes are bound as XML allows, is
/// regular, with texts and names that XML allows (XPath 2.0, 2.5.3).
pub fn unbroken_types_are_good()
    ensures { (p : StaticContext) (text : List ℕ) → SoundBindings p.bound → type_faults p text ≡ []
        → is_good_kind (Some (type_value p text)) ≡ true }
{}
