// Whole queries.
ghost use Rattle.std.specs.Prelude.{◌≡◌, ◌&&◌, IfOk};
ghost use Rattle.printed_laws.specs.QueryRaws.Queries.{prefixes_of, can_print};
ghost use Rattle.printed_laws.specs.PrintedQueries.Keeps.{is_kept};

use crate::printable_queries::declarations::{can_functions, can_variables, is_clean};
use crate::printable_queries::declared::keeps_declarations;
use crate::printable_queries::options::{can_namespaces, can_omit, can_space};
use crate::printable_queries::prefixes::has_own_prefixes;
use expr_drafts::name_prefixes::NamePrefixes;
use std::alloc::{AllocError, Global};
use xt_syntax::Query;

/// Each of six.
fn are_all(a: bool, b: bool, c: bool, d: bool, e: bool, f: bool) -> bool
    ensures { result ≡ (a && (b && (c && (d && (e && f))))) }
{
    a && (b && (c && (d && (e && f))))
}

fn can_print(alloc: Global, prefixes: &NamePrefixes, query: &Query) -> Result<bool, AllocError>
    requires { prefixes.now ≡ prefixes_of query.now }
    ensures { IfOk result (λ can. can ≡ can_print query.now) }
{
    let namespaces = can_namespaces(alloc, query.prefixes.as_slice())?;
    let space = can_space(alloc, prefixes, query.space.as_slice())?;
    let omit = can_omit(alloc, prefixes, query.omit)?;
    let variables = can_variables(alloc, prefixes, query.variables.as_slice())?;
    let functions = can_functions(alloc, prefixes, query.functions.as_slice())?;
    let body = is_clean(alloc, prefixes, &query.body)?;
    Ok(are_all(namespaces, space, omit, variables, functions, body))
}

/// Whether the query has a way to be written and breaks no rule, under the prefixes that it is
/// written with.
/// (XQuery 1.0, 2.2.4 and 4)
pub fn is_kept(alloc: Global, prefixes: &NamePrefixes, query: &Query) -> Result<bool, AllocError>
    requires { prefixes.now ≡ prefixes_of query.now }
    ensures { IfOk result (λ kept. kept ≡ is_kept query.now) }
{
    if !can_print(alloc, prefixes, query)? {
        return Ok(false);
    }
    if !query.element_default.is_empty() {
        return Ok(false);
    }
    if !has_own_prefixes(alloc, query)? {
        return Ok(false);
    }
    keeps_declarations(alloc, query)
}
