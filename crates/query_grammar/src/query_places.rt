//! Where a direct element may begin, and where an expression ends: laws alone.
//!
//! In the text of a query `<` directly before a name is the front of a direct element where an
//! operand may come next, and a comparison elsewhere (XQuery 1.0, 3.7.1). `wants_operand` tells
//! from the productions that are open which of the two it is. The laws say that the front of an
//! element is taken exactly there, and that `<` is taken nowhere there, unless directly after a
//! `/` that may stand alone.
//!
//! A semicolon, which ends a declaration, is part of no expression; a closing brace, which ends
//! the body of a function, is part of none that may end before it.
//!
//! Example: at the start and behind `1 +` an operand may come next, behind `1` none.

ghost use Rattle.std.specs.Prelude.{◌≡◌, ℕ, List, Some, None, true, false, is_some};
ghost use Rattle.expr_keys.specs.declared.keys.Key.TheVariants.{Less as less, Slash as slash};
ghost use Rattle.expr_keys.specs.declared.keys.Key.TheVariants.{Semicolon as semicolon};
ghost use Rattle.expr_keys.specs.declared.keys.Key.TheVariants.{CloseBrace as close_brace};
ghost use Rattle.expr_terms.specs.declared.raws.Raw.{Raw};
ghost use Rattle.expr_keys.specs.declared.tokens.Token.{Token};
ghost use Rattle.expr_keys.specs.declared.tokens.Token.TheVariants.{Key as key, StartTagOpen as start_tag_open};
ghost use Rattle.expr_terms.specs.declared.choices.Second.{Second};
ghost use Rattle.expr_keys.specs.declared.productions.Language.{Language};
ghost use Rattle.expr_keys.specs.declared.productions.Language.TheVariants.{Xquery as xquery};
ghost use Rattle.expr_terms.specs.Choices.{second_of};
ghost use Rattle.expr_grammar.specs.Machine.{Frame, advance, finish};
ghost use Rattle.query_grammar.specs.QueryPlaces.Places.{wants_operand, is_lone_slash, IsStart, Reached};

/// The front of a direct element is taken exactly where an operand may come next.
pub fn elements_are_operands()
    ensures { (p n : List ℕ) (s : Second) (fs : List Frame)
        → is_some (advance xquery (start_tag_open p n) s fs) ≡ wants_operand fs }
{}

/// Where an operand may come next `<` is not taken, but after a `/` that may stand alone.
pub fn no_operand_is_compared()
    ensures { (from fs : List Frame) (s : Second) → IsStart from → Reached xquery from fs
        → wants_operand fs ≡ true → is_lone_slash fs ≡ false
        → advance xquery (key less) s fs ≡ None }
{}

/// Only `/` leads to where it may stand alone.
pub fn slashes_stand_alone()
    ensures { (l : Language) (t : Token) (ts : List Token) (from fs gs : List Frame)
        → IsStart from → Reached l from fs → advance l t (second_of ts) fs ≡ Some gs
        → is_lone_slash gs ≡ true → t ≡ key slash }
{}

/// A semicolon is in no expression.
pub fn semicolons_end_expressions()
    ensures { (l : Language) (s : Second) (from fs : List Frame) → IsStart from
        → Reached l from fs → advance l (key semicolon) s fs ≡ None }
{}

/// A closing brace is no part of what may end before it.
pub fn braces_end_expressions()
    ensures { (l : Language) (s : Second) (fs : List Frame) (v : Raw) → finish fs ≡ Some v
        → advance l (key close_brace) s fs ≡ None }
{}
