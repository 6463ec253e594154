// How deep queries nest.
ghost use Rattle.std.specs.Prelude.{◌≡◌, nat_le};
ghost use Rattle.printed_laws.specs.PrintedReads.Nests.{value_nest_of, variables_nest_of, functions_nest_of};
ghost use Rattle.printed_laws.specs.PrintedReads.Nests.{query_nest_of};

use kept_rules::nest_limits::nests_within as expr_within;
use xt_syntax::{Expr, Query, QueryFunction, QueryVar};

#[tactic(auto, using(kept_rules::proofs::NestLimits::Bounds::limits))]
fn value_within(value: &Option<Expr>, limit: u32) -> bool
    ensures { result ≡ nat_le (value_nest_of value.now) limit }
{
    match value {
        None => true,
        Some(e) => expr_within(e, limit),
    }
}

#[tactic(auto, using(kept_rules::proofs::NestLimits::Bounds::limits))]
fn variables_within(variables: &[QueryVar], limit: u32) -> bool
    ensures { result ≡ nat_le (variables_nest_of variables.now) limit }
{
    for variable in variables {
        if !value_within(&variable.value, limit) {
            return false;
        }
    }
    true
}

#[tactic(auto, using(kept_rules::proofs::NestLimits::Bounds::limits))]
fn functions_within(functions: &[QueryFunction], limit: u32) -> bool
    ensures { result ≡ nat_le (functions_nest_of functions.now) limit }
{
    for function in functions {
        if !expr_within(&function.body, limit) {
            return false;
        }
    }
    true
}

/// Whether no expression of the query has more than so many levels. No part of one is looked at
/// that stands deeper than the limit.
/// (XQuery 1.0, 4)
#[tactic(auto, using(kept_rules::proofs::NestLimits::Bounds::limits))]
pub fn nests_within(query: &Query, limit: u32) -> bool
    ensures { result ≡ nat_le (query_nest_of query.now) limit }
{
    (variables_within(query.variables.as_slice(), limit)
        && functions_within(query.functions.as_slice(), limit))
        && expr_within(&query.body, limit)
}
