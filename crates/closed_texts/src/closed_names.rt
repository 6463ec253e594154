//! Names in attributes of stylesheets that break no rule: those that XML and its namespaces allow
//! (XSLT 2.0, 5.1; Namespaces in XML 1.0, 4). Laws alone.

ghost use Rattle.std.specs.Prelude.{◌≡◌, ℕ, List, [], true, false};
ghost use Rattle.std.specs.List.{list_all};
ghost use Rattle.closed_texts.specs.ClosedNames.Tests.{is_declared_test};
ghost use Rattle.closed_queries.specs.Texts.{is_free_uri, is_sound_expr_name, is_sound_name_test};
ghost use Rattle.closed_sheets.specs.Values.{is_good_binding};
ghost use Rattle.xt_names.specs.ExprNames.{uri_of};
ghost use Rattle.sheet_values.specs.Elements.{name_tests_faults, name_tests_value};
ghost use Rattle.sheet_values.specs.Names.{declared_faults, function_faults, qname_faults, qname_value};
ghost use Rattle.sound_expressions.specs.SoundForms.Sound.{SoundBindings};
ghost use Rattle.xt_names.specs.Allowed.{is_empty_text};
ghost use Rattle.xt_names.specs.declared.codes.SheetStaticCode.{SheetStaticCode};
ghost use Rattle.xt_names.specs.declared.names.Binding.{Binding};

/// A name that breaks no rule, where prefixes are bound as XML allows, is one that XML allows: one
/// that is used, and one that is declared (XSLT 2.0, 5.1).
pub fn unbroken_names_are_sound()
    ensures used { (bound : List Binding) (text : List ℕ) → SoundBindings bound
        → qname_faults bound text ≡ [] → is_sound_expr_name (qname_value bound text) ≡ true }
    ensures declared { (code : SheetStaticCode) (bound : List Binding) (text : List ℕ)
        → SoundBindings bound → declared_faults code bound text ≡ []
        → is_sound_expr_name (qname_value bound text) ≡ true }
{}

/// The name of a function that breaks no rule has a uri, and is one that XML allows (XSLT 2.0,
/// 10.3).
pub fn unbroken_functions_have_uris()
    ensures uri { (bound : List Binding) (text : List ℕ) → function_faults bound text ≡ []
        → is_empty_text (qname_value bound text).uri ≡ false }
    ensures sound { (bound : List Binding) (text : List ℕ) → SoundBindings bound
        → function_faults bound text ≡ [] → is_sound_expr_name (qname_value bound text) ≡ true }
{}

/// Each name test of a list that breaks no rule has names that XML allows, and `p:*` has a uri,
/// which is not that of xmlns (XSLT 2.0, 4.4).
pub fn unbroken_name_tests_are_sound()
    ensures sound { (bound : List Binding) (text : List ℕ) → SoundBindings bound
        → name_tests_faults bound text ≡ []
        → list_all is_sound_name_test (name_tests_value bound text) ≡ true }
    ensures declared { (bound : List Binding) (text : List ℕ) → SoundBindings bound
        → name_tests_faults bound text ≡ []
        → list_all is_declared_test (name_tests_value bound text) ≡ true }
{}

/// Where each binding is one that may be declared, or that of the prefix xml, the default
/// namespace is one that may be declared (Namespaces in XML 1.0, 3).
pub fn default_namespaces_may_be_declared()
    ensures { (bound : List Binding) → list_all is_good_binding bound ≡ true
        → is_free_uri (uri_of bound []) ≡ true }
{}
