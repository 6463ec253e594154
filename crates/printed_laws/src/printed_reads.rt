//! What is read of the text of a query that is printed is the query (XQuery 1.0, 4 and A). A
//! definition and laws alone.
//!
//! `specs/Nests` says how deep a query nests. No text that it is printed as nests deeper, so a parser
//! with a limit that the query is within gives back just this query.

ghost use Rattle.std.specs.Prelude.{◌≡◌, ◌≤◌, ℕ, Result, Ok, true};
ghost use Rattle.xt_syntax.specs.declared.queries.Query.{Query};
ghost use Rattle.xt_syntax.specs.declared.prefixes.ParseFault.{ParseFault};
ghost use Rattle.closed_queries.specs.Closed.{is_closed};
ghost use Rattle.query_pages.specs.TokenTexts.Texts.{Layout, IsLayout, text_of};
ghost use Rattle.token_laws.specs.WrittenTokens.Fit.{are_fit};
ghost use Rattle.query_texts.specs.Texts.{query_nest};
ghost use Rattle.xquery_syntax.specs.Spelled.{SpellsWithin, Parsed, IsSettled};
ghost use Rattle.printed_laws.specs.QueryRaws.Queries.{raw_query, query_tokens, can_print};
ghost use Rattle.printed_laws.specs.PrintedQueries.Keeps.{is_kept};
ghost use Rattle.printed_laws.specs.PrintedReads.Nests.{query_nest_of};

/// A query as it is written nests no deeper than the query; so the text of a closed query that can
/// be printed and breaks no rule spells it within each limit that it is within; and so a parser with
/// such a limit gives the query, unless memory runs out.
/// (XQuery 1.0, 2.2.4, 3.7.1, 4 and A)
pub fn texts_are_read()
    ensures nests { (q : Query) → can_print q ≡ true
        → query_nest (raw_query q) ≤ query_nest_of q }
    ensures within { (k : ℕ) (layout : Layout) (q : Query) → IsLayout layout → is_kept q ≡ true
        → is_closed q ≡ true → are_fit (query_tokens q) ≡ true → query_nest_of q ≤ k
        → SpellsWithin k (text_of layout (query_tokens q)) q }
    ensures parsed { (k : ℕ) (layout : Layout) (q : Query) (r : Result Query ParseFault)
        → IsLayout layout → is_kept q ≡ true → is_closed q ≡ true
        → are_fit (query_tokens q) ≡ true → query_nest_of q ≤ k
        → Parsed r k (text_of layout (query_tokens q)) → IsSettled r → r ≡ Ok q }
{}
