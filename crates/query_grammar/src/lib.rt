//! The grammar of queries over tokens (XQuery 1.0, 4 and A.1). Definitions and laws alone.
//!
//! `specs/Prolog` has the relation: a query is its declarations, each with a semicolon after it,
//! and an expression; what may be in one is the grammar of expressions'. `specs/Machine` has a
//! reader, token by token, as a pure function. The laws say that the two are one.
#![tactic(auto)]

ghost use Rattle.std.specs.Prelude.{◌≡◌, ◌↔◌, ℕ, List, ◌∷◌, Some, None, true, false};
ghost use Rattle.expr_keys.specs.declared.tokens.Token.{Token};
ghost use Rattle.query_grammar.specs.Prolog.{SpellsQuery};
ghost use Rattle.expr_keys.specs.declared.tokens.Token.TheVariants.{Key as key, StartTagOpen as start_tag_open};
ghost use Rattle.expr_keys.specs.declared.keys.Key.TheVariants.{Less as less, Slash as slash};
ghost use Rattle.expr_terms.specs.Choices.{second_of};
ghost use Rattle.query_grammar.specs.Machine.{read_query, Mode, step, wants, is_lone, Leads};
ghost use Rattle.query_grammar.specs.Machine.{refused, onto};

mod declared;
pub mod query_places;

pub use declared::{Declared, Opening, RawQuery, Signature, Typed};

/// What the reader makes of tokens is the query that they spell, and where it refuses them they
/// spell none.
pub fn reads_what_is_spelled()
    ensures found { (ts : List Token) (q : RawQuery) →
        SpellsQuery ts q ↔ (read_query ts ≡ Some q) }
    ensures none { (ts : List Token) → read_query ts ≡ None → (q : RawQuery) →
        SpellsQuery ts q → ⊥ }
{}

/// Tokens spell at most one query.
pub fn spells_one()
    ensures { (ts : List Token) (a b : RawQuery) → SpellsQuery ts a → SpellsQuery ts b → a ≡ b }
{}

/// Where no operand may come next the reader takes no front of a direct element.
pub fn elements_are_operands()
    ensures { (m : Mode) (p n : List ℕ) (ts : List Token) → Leads m (start_tag_open p n ∷ ts)
        → wants m ≡ false → step m (start_tag_open p n) (second_of ts) ≡ refused }
{}

/// Where one may come next it takes no `<`, but after a `/` that may stand alone.
pub fn no_operand_is_compared()
    ensures { (m : Mode) (ts : List Token) → Leads m (key less ∷ ts) → wants m ≡ true
        → is_lone m ≡ false → step m (key less) (second_of ts) ≡ refused }
{}

/// Only `/` leads to where it may stand alone.
pub fn slashes_stand_alone()
    ensures { (m n : Mode) (t : Token) (ts : List Token) → Leads m (t ∷ ts)
        → step m t (second_of ts) ≡ onto n → is_lone n ≡ true → t ≡ key slash }
{}
