//! What texts of stylesheets mean as expressions and as attribute value templates that break no
//! rule: such as a closed stylesheet may have (XSLT 2.0, 5.2 and 5.6). Laws alone.
//!
//! Such an expression is a regular one of XPath, with texts and names that XML allows; it nests at
//! most 40 levels, and each call in it of a function that stylesheets alone have may stand where
//! the text does.

ghost use Rattle.std.specs.Prelude.{◌≡◌, ℕ, List, [], true};
ghost use Rattle.closed_sheets.specs.Values.{is_good_template, is_sheet_expr};
ghost use Rattle.sheet_language.specs.Language.{expr_faults, expr_value, sheet_reading};
ghost use Rattle.sheet_values.specs.SheetTexts.Templates.{template_faults, template_value};
ghost use Rattle.sheet_values.specs.declared.sheet_texts.places.StaticContext.{StaticContext};
ghost use Rattle.sound_expressions.specs.SoundForms.Sound.{SoundBindings};
ghost use Rattle.sheet_closure.specs.StandingParts.Calls.{expr_stands};
ghost use Rattle.sheet_closure.specs.StandingParts.Values.{template_stands};
ghost use Rattle.xt_names.specs.Classes.{is_xml_text};

/// An expression in a stylesheet that breaks no rule, where prefixes are bound as XML allows, is a
/// regular one of XPath, with texts and names that XML allows, and may stand where its text does
/// (XPath 2.0, 3; XSLT 2.0, 5.2, 14.1, 16.3 and 16.6).
pub fn unbroken_expressions_are_closed()
    ensures good { (p : StaticContext) (text : List ℕ) → SoundBindings p.bound → expr_faults p text ≡ []
        → is_sheet_expr (expr_value p text) ≡ true }
    ensures stands { (p : StaticContext) (text : List ℕ) → SoundBindings p.bound → expr_faults p text ≡ []
        → expr_stands p.in_group (expr_value p text) ≡ true }
{}

/// An attribute value template that breaks no rule, whose text is of characters of XML, has parts
/// that a closed stylesheet may have there, where prefixes are bound as XML allows (XSLT 2.0,
/// 5.6).
pub fn unbroken_templates_are_closed()
    ensures good { (p : StaticContext) (text : List ℕ) → SoundBindings p.bound → is_xml_text text ≡ true
        → template_faults sheet_reading p text ≡ []
        → is_good_template (template_value sheet_reading p text) ≡ true }
    ensures stands { (p : StaticContext) (text : List ℕ) → SoundBindings p.bound → is_xml_text text ≡ true
        → template_faults sheet_reading p text ≡ []
        → template_stands p.in_group (template_value sheet_reading p text) ≡ true }
{}
