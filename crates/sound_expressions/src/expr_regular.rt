//! What expressions mean that break no rule: regular ones, with texts and names that XML allows
//! (XPath 2.0, 3; XQuery 1.0, 3). A law alone.
//!
//! The proof goes over what is read, production by production: what a part means is known from the
//! nonterminal that it is read as, where no rule is broken and direct elements end alike.

ghost use Rattle.std.specs.Prelude.{◌≡◌, List, [], true};
ghost use Rattle.closed_queries.specs.Closed.{is_good_expr};
ghost use Rattle.closed_queries.specs.Texts.{is_sound_type};
ghost use Rattle.expr_grammar.specs.Grammar.{Derives, Spells, SpellsType};
ghost use Rattle.expr_resolve.specs.declared.setting.Setting.{Setting};
ghost use Rattle.expr_resolve.specs.Folds.{broken_of, expr_meant, type_meant};
ghost use Rattle.expr_rules.specs.ExprShapes.Shapes.{is_shaped};
ghost use Rattle.expr_keys.specs.declared.productions.Language.{Language};
ghost use Rattle.expr_keys.specs.declared.productions.Nonterminal.TheVariants.{ExprSingle as expr_single};
ghost use Rattle.expr_terms.specs.declared.raws.Raw.{Raw};
ghost use Rattle.expr_keys.specs.declared.tokens.Token.{Token};
ghost use Rattle.sound_expressions.specs.SoundForms.Sound.{are_sound, SoundPrefixes};
ghost use Rattle.xt_types.specs.Regular.{is_regular_type};

/// Sound tokens that spell an expression which breaks no rule, under prefixes that XML allows, and
/// whose direct elements end with the name that they begin with, spell a regular one, with texts
/// and names that XML allows; and so does an initialiser. A type that they spell is so too.
/// (XPath 2.0, 2.5.3 and 3; XQuery 1.0, 3)
pub fn unbroken_expressions_are_regular()
    ensures whole { (s : Setting) (l : Language) (ts : List Token) (v : Raw)
        → SoundPrefixes s.prefixes → are_sound ts ≡ true → Spells l ts v → is_shaped v ≡ true
        → broken_of s v ≡ [] → is_good_expr (expr_meant s v) ≡ true }
    ensures single { (s : Setting) (l : Language) (ts : List Token) (v : Raw)
        → SoundPrefixes s.prefixes → are_sound ts ≡ true → Derives l expr_single ts v []
        → is_shaped v ≡ true → broken_of s v ≡ [] → is_good_expr (expr_meant s v) ≡ true }
    ensures kind { (s : Setting) (l : Language) (ts : List Token) (v : Raw)
        → SoundPrefixes s.prefixes → are_sound ts ≡ true → SpellsType l ts v
        → broken_of s v ≡ [] → is_regular_type (type_meant s v) ≡ true }
    ensures sound_kind { (s : Setting) (l : Language) (ts : List Token) (v : Raw)
        → SoundPrefixes s.prefixes → are_sound ts ≡ true → SpellsType l ts v
        → broken_of s v ≡ [] → is_sound_type (type_meant s v) ≡ true }
{}
