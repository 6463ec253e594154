//! The tokens that spell a raw value (XPath 2.0, A.1; XQuery 1.0, A.1). Definitions and laws alone.
//!
//! `specs/Tokens` has them: the body of the value's production, from the one table, with its
//! leaves and parts in place. `specs/Stands` says which raw values are well formed at a
//! nonterminal. The laws say that the tokens of such a value spell it.
#![tactic(auto)]

pub mod query_tokens;

ghost use Rattle.std.specs.Prelude.{◌≡◌, List, ◌++◌, Some, true, false, []};
ghost use Rattle.expr_keys.specs.declared.tokens.Token.{Token};
ghost use Rattle.expr_keys.specs.declared.productions.Language.{Language};
ghost use Rattle.expr_keys.specs.declared.productions.Nonterminal.{Nonterminal};
ghost use Rattle.expr_terms.specs.declared.raws.Raw.{Raw};
ghost use Rattle.expr_grammar.specs.Grammar.{Derives, Spells, SpellsType};
ghost use Rattle.expr_grammar.specs.Machine.{read_whole};
ghost use Rattle.raw_tokens.specs.Tokens.{tokens_at, tokens_of, type_tokens_of};
ghost use Rattle.raw_tokens.specs.Stands.{stands_at, is_expr, is_type, goes_on};

/// The tokens of a value that is at a nonterminal derive it there, before those that follow.
/// (XPath 2.0, A.1; XQuery 1.0, A.1)
pub fn tokens_derive()
    ensures { (l : Language) (n : Nonterminal) (v : Raw) (rest : List Token)
        → stands_at l n v rest ≡ true → Derives l n (tokens_at n v rest) v rest }
{}

/// What follows a value comes after its tokens, whatever it is.
/// (XPath 2.0, A.1; XQuery 1.0, A.1)
pub fn tokens_stand_before()
    ensures { (n : Nonterminal) (v : Raw) (ts rest : List Token)
        → tokens_at n v (ts ++ rest) ≡ tokens_at n v ts ++ rest }
{}

/// Where the tokens that follow begin no step and are no mark of a type, a value comes before
/// them as it does before nothing, and so its tokens derive it before them.
/// (XPath 2.0, A.1.2; XQuery 1.0, A.1.2)
pub fn tokens_end()
    ensures stands { (l : Language) (n : Nonterminal) (v : Raw) (rest : List Token)
        → goes_on rest ≡ false → stands_at l n v rest ≡ stands_at l n v [] }
    ensures derived { (l : Language) (n : Nonterminal) (v : Raw) (rest : List Token)
        → stands_at l n v [] ≡ true → goes_on rest ≡ false
        → Derives l n (tokens_at n v [] ++ rest) v rest }
{}

/// The tokens of a well-formed expression spell it.
/// (XPath 2.0, A.1; XQuery 1.0, A.1)
pub fn tokens_spell()
    ensures { (l : Language) (v : Raw) → is_expr l v ≡ true → Spells l (tokens_of v) v }
{}

/// They are read back as the expression.
/// (XPath 2.0, A.1; XQuery 1.0, A.1)
pub fn tokens_are_read_back()
    ensures { (l : Language) (v : Raw) → is_expr l v ≡ true → read_whole l (tokens_of v) ≡ Some v }
{}

/// The tokens of a well-formed sequence type spell it.
/// (XPath 2.0, 2.5.3 and A.1; XQuery 1.0, 2.5.3 and A.1)
pub fn tokens_spell_type()
    ensures { (l : Language) (v : Raw) → is_type l v ≡ true → SpellsType l (type_tokens_of v) v }
{}
