// The namespaces of a query.
ghost use Rattle.std.specs.Prelude.{◌≡◌, map, IfOk};
ghost use Rattle.closed_queries.specs.declared.prolog_rules.setters.Setter.TheVariants as setter_of;
ghost use Rattle.printed_laws.specs.QueryRaws.Queries.{prefixes_of};
ghost use Rattle.printed_laws.specs.PrintedQueries.Keeps.{has_own_prefixes};

use closed_queries::prolog_rules::{Setter, broken_setter};
use expr_drafts::name_prefixes::NamePrefixes;
use query_resolve::query_prologs::prefixes_of;
use std::alloc::{AllocError, Global};
use xt_names::{Binding, List};
use xt_syntax::Query;

/// The namespaces as setters.
fn setters_of(alloc: Global, bindings: &[Binding]) -> Result<List<Setter>, AllocError>
    ensures { IfOk result (λ setters. setters ≡ map (λ b. setter_of.Namespace b) bindings.now) }
{
    let mut setters = List::new(alloc);
    for binding in bindings {
        setters.push(Setter::Namespace(binding.copy()?))?;
    }
    Ok(setters)
}

/// How names are resolved in the query as it is printed: by its namespaces alone.
/// (XQuery 1.0, 4.12)
#[tactic(auto, using(crate::proofs::PrintableQueries::PrefixLemmas::namespaces_alone))]
pub fn prefixes_in(alloc: Global, query: &Query) -> Result<NamePrefixes, AllocError>
    ensures { IfOk result (λ prefixes. prefixes ≡ prefixes_of query.now) }
{
    let setters = setters_of(alloc, query.prefixes.as_slice())?;
    let prefixes = prefixes_of(alloc, setters.as_slice())?;
    NamePrefixes::new(alloc, &prefixes)
}

/// Whether no prefix stands twice, and none is xml or xmlns or has the uri of one.
/// (XQuery 1.0, 4.12)
#[tactic(auto, using(crate::proofs::PrintableQueries::CodeLemmas::codes))]
pub(crate) fn has_own_prefixes(alloc: Global, query: &Query) -> Result<bool, AllocError>
    ensures { IfOk result (λ own. own ≡ has_own_prefixes query.now) }
{
    let setters = setters_of(alloc, query.prefixes.as_slice())?;
    let fault = broken_setter(alloc, setters.as_slice())?;
    Ok(!fault.is_some())
}
