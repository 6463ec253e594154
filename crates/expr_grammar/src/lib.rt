//! The grammar of XPath expressions, of the expressions of queries and of sequence types, over
//! tokens (XPath 2.0, A.1; XQuery 1.0, A.1). Definitions and laws alone.
//!
//! `specs/Grammar` has the relation that the table of productions gives: `Spells` for an
//! expression, `SpellsType` for a sequence type. `specs/Machine` has a reader, token by token, as a
//! pure function: `read_whole` and `read_type`. The laws say that the two are one.
#![tactic(auto)]

pub mod expr_nest;

ghost use Rattle.std.specs.Prelude.{◌≡◌, ◌↔◌, List, Some, None};
ghost use Rattle.expr_keys.specs.declared.tokens.Token.{Token};
ghost use Rattle.expr_keys.specs.declared.productions.Language.{Language};
ghost use Rattle.expr_terms.specs.declared.raws.Raw.{Raw};
ghost use Rattle.expr_grammar.specs.Grammar.{Spells, SpellsType};
ghost use Rattle.expr_grammar.specs.Machine.{read_whole, read_type};

/// Tokens spell at most one expression.
pub fn spells_one()
    ensures { (l : Language) (ts : List Token) (v w : Raw) → Spells l ts v → Spells l ts w → v ≡ w }
{}

/// Tokens spell at most one sequence type.
pub fn spells_one_type()
    ensures { (l : Language) (ts : List Token) (v w : Raw) → SpellsType l ts v → SpellsType l ts w → v ≡ w }
{}

/// What the reader makes of tokens is the expression that they spell, and where it refuses them
/// they spell none.
pub fn reads_what_is_spelled()
    ensures found { (l : Language) (ts : List Token) (v : Raw) → Spells l ts v ↔ (read_whole l ts ≡ Some v) }
    ensures none { (l : Language) (ts : List Token) → read_whole l ts ≡ None → (v : Raw) → Spells l ts v → ⊥ }
{}

/// The same for sequence types.
pub fn reads_what_is_spelled_as_type()
    ensures found { (l : Language) (ts : List Token) (v : Raw) → SpellsType l ts v ↔ (read_type l ts ≡ Some v) }
    ensures none { (l : Language) (ts : List Token) → read_type l ts ≡ None → (v : Raw) → SpellsType l ts v → ⊥ }
{}
