//! The text of a query that is printed spells the query (XQuery 1.0, 4 and A). Laws alone.

ghost use Rattle.std.specs.Prelude.{◌≡◌, true};
ghost use Rattle.xt_syntax.specs.declared.queries.Query.{Query};
ghost use Rattle.closed_queries.specs.Closed.{is_closed};
ghost use Rattle.query_pages.specs.TokenTexts.Texts.{Layout, IsLayout, text_of};
ghost use Rattle.query_pages.specs.TokenTexts.Written.{is_written};
ghost use Rattle.token_laws.specs.WrittenTokens.Fit.{are_fit};
ghost use Rattle.xquery_syntax.specs.Spelled.{Spells};
ghost use Rattle.printed_laws.specs.QueryRaws.Queries.{query_tokens, can_print};
ghost use Rattle.printed_laws.specs.PrintedQueries.Keeps.{is_kept};

/// The tokens of a query that can be printed can be written, where the text of each of them can be;
/// and then the text of the tokens of a closed query that breaks no rule spells just this query,
/// whatever white space is between them.
/// (XQuery 1.0, 2.2.4, 3.7.1, 4 and A)
pub fn texts_spell()
    ensures written { (q : Query) → can_print q ≡ true → are_fit (query_tokens q) ≡ true
        → is_written (query_tokens q) ≡ true }
    ensures spelled { (layout : Layout) (q : Query) → IsLayout layout → is_kept q ≡ true
        → is_closed q ≡ true → are_fit (query_tokens q) ≡ true
        → Spells (text_of layout (query_tokens q)) q }
{}
