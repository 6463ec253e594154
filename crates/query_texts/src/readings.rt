// What is read.
use query_grammar::RawQuery;

/// What the text of a query is read as.
/// (XQuery 1.0, 4 and A)
#[derive(Drop)]
pub enum QueryReading {
    /// It spells no query.
    Nothing,
    /// It spells one with an expression that nests deeper than the limit.
    TooDeep,
    /// The query that it spells.
    Value(RawQuery),
}
