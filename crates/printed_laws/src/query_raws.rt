//! Queries as they are printed: a raw query, and the tokens that spell it (XQuery 1.0, 4 and A.1).
//! Definitions and a law alone.
//!
//! `specs/Prologs` has the version, the namespaces, boundary white space and the options,
//! `specs/Declarations` variables and functions, `specs/Queries` the whole. The law says that the
//! tokens of a query that can be printed spell it.

ghost use Rattle.std.specs.Prelude.{◌≡◌, true};
ghost use Rattle.xt_syntax.specs.declared.queries.Query.{Query};
ghost use Rattle.query_grammar.specs.Prolog.{SpellsQuery};
ghost use Rattle.printed_laws.specs.QueryRaws.Queries.{raw_query, query_tokens, can_print};

/// The tokens of a query that can be printed spell it as it is written.
/// (XQuery 1.0, 4 and A.1)
pub fn tokens_spell()
    ensures { (q : Query) → can_print q ≡ true → SpellsQuery (query_tokens q) (raw_query q) }
{}
