//! Names and texts that XML allows, and forms of expressions that are regular with such texts
//! (Namespaces in XML 1.0, 4; XPath 2.0, 3; XQuery 1.0, 3). Definitions and a law alone.
//!
//! `specs/Sound` says which tokens have sound texts and which bindings of prefixes XML allows. The
//! law says that the names which such tokens write can be written. What makes each form of
//! expression regular is in the proofs, for the laws above.

ghost use Rattle.std.specs.Prelude.{◌≡◌, ℕ, List, [], true, false};
ghost use Rattle.std.specs.Str.{bytes_eq};
ghost use Rattle.closed_queries.specs.Texts.{is_sound_expr_name, is_sound_name};
ghost use Rattle.expr_rules.specs.ExprMeant.Names.{written_in};
ghost use Rattle.expr_names.specs.Names.{expr_name, node_name, undeclared_in};
ghost use Rattle.expr_keys.specs.Tokens.{fits_name};
ghost use Rattle.expr_keys.specs.declared.tokens.Token.{Token};
ghost use Rattle.sound_expressions.specs.SoundForms.Sound.{is_sound_token, SoundBindings, SoundUri};
ghost use Rattle.xt_names.specs.Allowed.{xml_uri};
ghost use Rattle.xt_names.specs.declared.names.Binding.{Binding};

/// A name that a sound token writes can be written, whatever it is resolved to under bindings that
/// XML allows; and one that a node is to have, where its prefix is declared.
/// (Namespaces in XML 1.0, 3 and 4; XQuery 1.0, 2.1.1)
pub fn names_are_sound()
    ensures expr { (bound : List Binding) (default : List ℕ) (t : Token) → SoundBindings bound
        → SoundUri default → fits_name t ≡ true → is_sound_token t ≡ true
        → is_sound_expr_name (expr_name bound default (written_in t)) ≡ true }
    ensures node { (bound : List Binding) (default : List ℕ) (t : Token) → SoundBindings bound
        → SoundUri default → bytes_eq default xml_uri ≡ false → fits_name t ≡ true
        → is_sound_token t ≡ true → undeclared_in bound (written_in t) ≡ []
        → is_sound_name (node_name bound default (written_in t)) ≡ true }
{}
