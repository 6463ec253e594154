// From the text of a query to its value.
ghost use Rattle.std.specs.Prelude.{◌≡◌};
ghost use Rattle.std.specs.Str.{chars};
ghost use Rattle.query_resolve.specs.Queries.{resolved};
ghost use Rattle.xquery_syntax.specs.Answers.{meant_answer, answer, Gives};
ghost use Rattle.xquery_syntax.specs.Spelled.{Parsed};

use crate::shapes::is_shaped_query;
use expr_names::ResolveFault;
use query_grammar::RawQuery;
use query_resolve::resolve_query;
use query_texts::{QueryReading, read_query};
use std::alloc::Global;
use xt_syntax::{ParseFault, Query};

#[tactic(auto, using(crate::proofs::AnswerLemmas::meant_so))]
fn meant(alloc: Global, raw: &RawQuery) -> Result<Query, ParseFault>
    ensures { Gives result (meant_answer (resolved raw.now)) }
{
    match resolve_query(alloc, raw) {
        Err(ResolveFault::Static(code)) => Err(ParseFault::Static(code)),
        Err(ResolveFault::Memory(e)) => Err(ParseFault::Memory(e)),
        Ok(query) => Ok(query),
    }
}

/// What a query gives that is read within the limit.
#[tactic(auto, using(crate::proofs::AnswerLemmas::shaping))]
fn answer(alloc: Global, raw: &RawQuery) -> Result<Query, ParseFault>
    ensures { Gives result (answer raw.now) }
{
    match is_shaped_query(alloc, raw) {
        Err(e) => Err(ParseFault::Memory(e)),
        Ok(false) => Err(ParseFault::Syntax),
        Ok(true) => meant(alloc, raw),
    }
}

/// The query that the text spells (XQuery 1.0, A.1), where each of its expressions (its body, the
/// initialisers and the bodies of functions) nests no deeper than 400 levels and it breaks no
/// static rule. It is closed. Each refusal comes exactly where it should: `TooDeep` where the text
/// spells a query with an expression that nests deeper, and then it has more than 400 characters;
/// `Static` where one that does not breaks a rule, with the code of the first; and `Syntax` where
/// it spells none, or one whose direct elements do not end with the name that they begin with or
/// have an attribute `xmlns` (3.7.1).
/// (XQuery 1.0, 2.3.1, 3.7.1, 4 and A)
#[tactic(auto, using(crate::proofs::ParsedLemmas::parsing))]
pub fn parse_query(alloc: Global, text: &str) -> Result<Query, ParseFault>
    ensures { Parsed result 400 (chars text.now) }
{
    match read_query(alloc, text, 400) {
        Err(e) => Err(ParseFault::Memory(e)),
        Ok(QueryReading::Nothing) => Err(ParseFault::Syntax),
        Ok(QueryReading::TooDeep) => Err(ParseFault::TooDeep),
        Ok(QueryReading::Value(raw)) => {
            let found = answer(alloc, &raw);
            drop(raw);
            found
        }
    }
}
