//! The tokens that spell a query (XQuery 1.0, 4 and A.1). Definitions and a law alone.
//!
//! `specs/Tokens` has them: each declaration with a semicolon after it, then the body.
//! `specs/Stands` says which queries are well formed. The law says that the tokens of such a query
//! spell it.

ghost use Rattle.std.specs.Prelude.{◌≡◌, Some, true};
ghost use Rattle.query_grammar.specs.Machine.{read_query};
ghost use Rattle.query_grammar.specs.Prolog.{SpellsQuery};
ghost use Rattle.query_grammar.specs.declared.declared.RawQuery.{RawQuery};
ghost use Rattle.raw_tokens.specs.QueryTokens.Tokens.{query_tokens};
ghost use Rattle.raw_tokens.specs.QueryTokens.Stands.{is_query};

/// The tokens of a well-formed query spell it.
/// (XQuery 1.0, 4 and A.1)
pub fn tokens_spell()
    ensures { (q : RawQuery) → is_query q ≡ true → SpellsQuery (query_tokens q) q }
{}

/// They are read back as the query.
/// (XQuery 1.0, 4 and A.1)
pub fn tokens_are_read_back()
    ensures { (q : RawQuery) → is_query q ≡ true → read_query (query_tokens q) ≡ Some q }
{}
