//! A query as it is printed means the query (XQuery 1.0, 2.2.4 and 4). Definitions and a law alone.
//!
//! `specs/Keeps` says what is asked of the query. The law says that the raw query breaks no static
//! rule, and means just that query.

ghost use Rattle.std.specs.Prelude.{◌≡◌, true};
ghost use Rattle.xt_syntax.specs.declared.queries.Query.{Query};
ghost use Rattle.query_resolve.specs.Meaning.{Meant};
ghost use Rattle.printed_laws.specs.QueryRaws.Queries.{raw_query};
ghost use Rattle.printed_laws.specs.PrintedQueries.Keeps.{is_kept};

/// A query as it is printed breaks no static rule, and means the query.
/// (XQuery 1.0, 2.2.4 and 4)
pub fn printed_queries_mean()
    ensures { (q : Query) → is_kept q ≡ true → Meant (raw_query q) q }
{}
