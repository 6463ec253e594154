// From a text to its query.
ghost use Rattle.std.specs.Str.{chars};
ghost use Rattle.xquery_syntax.specs.Answers.{Gives};
ghost use Rattle.xquery_syntax.specs.Spelled.{Parsed};
ghost use Rattle.query_readings.specs.Readings.{query_reading};

use std::alloc::Global;
use xquery_syntax::parse_query;
use xt_syntax::{ParseFault, Query};

/// The query that the text spells, where its expressions nest no deeper than 400 levels and it
/// breaks no static rule (XQuery 1.0, 2.3.1, 4 and A). Where there is none, the cause is that of
/// `xquery_syntax::parse_query`.
#[tactic(auto, using(crate::proofs::AnswerLemmas::parsing))]
pub fn parse_text(alloc: Global, text: &str) -> Result<Query, ParseFault>
    ensures spelled { Parsed result 400 (chars text.now) }
    ensures value { Gives result (query_reading 400 (chars text.now)) }
{
    parse_query(alloc, text)
}
