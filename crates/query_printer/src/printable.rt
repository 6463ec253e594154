// Queries that can be printed.
ghost use Rattle.std.specs.Prelude.{◌≡◌, true, IfOk};
ghost use Rattle.token_laws.specs.WrittenTokens.Fit.{are_fit};
ghost use Rattle.printed_laws.specs.QueryRaws.Queries.{prefixes_of, query_tokens, can_print};
ghost use Rattle.query_printer.specs.Printable.{is_printable};

use crate::fitness::are_fit;
use crate::printable_queries::{is_kept, nests_within, prefixes_in};
use crate::printing::page_of;
use closed_queries::query_closed;
use expr_drafts::name_prefixes::NamePrefixes;
use std::alloc::{AllocError, Global};
use xt_syntax::Query;

/// How deep a query nests at most that is printed.
const DEEPEST: u32 = 400;

/// Whether the texts of the tokens can be written.
fn has_fit_tokens(alloc: Global, prefixes: &NamePrefixes, query: &Query) -> Result<bool, AllocError>
    requires same { prefixes.now ≡ prefixes_of query.now }
    requires can { can_print query.now ≡ true }
    ensures { IfOk result (λ fit. fit ≡ are_fit (query_tokens query.now)) }
{
    let mut page = page_of(alloc, prefixes, query)?;
    Ok(are_fit(&mut page))
}

/// Whether the query can be printed: it has a way to be written and breaks no rule, names nothing
/// but what it declares, its names and texts can be written, and it nests at most 400 levels deep.
/// No part of it is looked at that stands deeper, so the stack that this takes is limited.
/// (XQuery 1.0, 2.2.4, 3.7.1, 4 and A)
#[tactic(auto, using(crate::proofs::TestLemmas::tests))]
pub fn is_printable(query: &Query) -> Result<bool, AllocError>
    ensures { IfOk result (λ printable. printable ≡ is_printable query.now) }
{
    if !nests_within(query, DEEPEST) {
        return Ok(false);
    }
    if !query_closed(query)? {
        return Ok(false);
    }
    let alloc = query.prefixes.allocator();
    let prefixes = prefixes_in(alloc, query)?;
    let kept = is_kept(alloc, &prefixes, query)?;
    if kept {
        let fit = has_fit_tokens(alloc, &prefixes, query)?;
        return Ok(fit);
    }
    Ok(false)
}
