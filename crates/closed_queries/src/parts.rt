// The parts of a query, each for itself.
ghost use Rattle.std.specs.Prelude.{◌≡◌};
ghost use Rattle.std.specs.List.{list_all};
ghost use Rattle.closed_queries.specs.Closed.{is_good_kind, is_good_expr, is_good_value, is_good_variable, is_good_param, is_good_function, has_good_parts};
ghost use Rattle.closed_queries.specs.Texts.{is_free_binding, is_sound_name_test};

use crate::expr_texts::has_sound_texts;
use crate::texts::{
    is_free_binding, is_free_uri, is_sound_expr_name, is_sound_name_test, is_sound_type,
};
use xt_forms::is_regular;
use xt_names::Binding;
use xt_syntax::{Expr, Query, QueryFunction, QueryParam, QueryVar, SeqType, SpaceRule};
use xt_types::is_regular_type;

/// Whether the query declares no namespace of xml or xmlns, all its expressions and types are regular, and XML allows
/// all its texts and names.
#[tactic(auto, unfolding(crate::specs::Closed::has_good_parts))]
pub(crate) fn has_good_parts(query: &Query) -> bool
    ensures { result ≡ has_good_parts query.now }
{
    are_free_bindings(query.prefixes.as_slice())
        && is_free_uri(&query.element_default)
        && are_good_variables(query.variables.as_slice())
        && are_good_functions(query.functions.as_slice())
        && is_good_expr(&query.body)
        && are_sound_rules(query.space.as_slice())
}

fn are_free_bindings(all: &[Binding]) -> bool
    ensures { result ≡ list_all is_free_binding all.now }
{
    for binding in all {
        if !is_free_binding(binding) {
            return false;
        }
    }
    true
}

fn are_good_variables(all: &[QueryVar]) -> bool
    ensures { result ≡ list_all is_good_variable all.now }
{
    for variable in all {
        if !is_good_variable(variable) {
            return false;
        }
    }
    true
}

#[tactic(auto, unfolding(crate::specs::Closed::is_good_variable))]
fn is_good_variable(variable: &QueryVar) -> bool
    ensures { result ≡ is_good_variable variable.now }
{
    is_sound_expr_name(&variable.name)
        && is_good_kind(&variable.kind)
        && is_good_value(&variable.value)
}

#[tactic(auto, unfolding(crate::specs::Closed::is_good_kind))]
fn is_good_kind(kind: &Option<SeqType>) -> bool
    ensures { result ≡ is_good_kind kind.now }
{
    match kind {
        None => true,
        Some(kind) => is_regular_type(kind) && is_sound_type(kind),
    }
}

#[tactic(auto, unfolding(crate::specs::Closed::is_good_value))]
fn is_good_value(value: &Option<Expr>) -> bool
    ensures { result ≡ is_good_value value.now }
{
    match value {
        None => true,
        Some(e) => is_good_expr(e),
    }
}

#[tactic(auto, unfolding(crate::specs::Closed::is_good_expr))]
fn is_good_expr(e: &Expr) -> bool
    ensures { result ≡ is_good_expr e.now }
{
    is_regular(e) && has_sound_texts(e)
}

fn are_good_functions(all: &[QueryFunction]) -> bool
    ensures { result ≡ list_all is_good_function all.now }
{
    for function in all {
        if !is_good_function(function) {
            return false;
        }
    }
    true
}

#[tactic(auto, unfolding(crate::specs::Closed::is_good_function))]
fn is_good_function(function: &QueryFunction) -> bool
    ensures { result ≡ is_good_function function.now }
{
    is_sound_expr_name(&function.name)
        && are_good_params(function.params.as_slice())
        && is_good_kind(&function.kind)
        && is_good_expr(&function.body)
}

fn are_good_params(all: &[QueryParam]) -> bool
    ensures { result ≡ list_all is_good_param all.now }
{
    for param in all {
        if !is_good_param(param) {
            return false;
        }
    }
    true
}

#[tactic(auto, unfolding(crate::specs::Closed::is_good_param))]
fn is_good_param(param: &QueryParam) -> bool
    ensures { result ≡ is_good_param param.now }
{
    is_sound_expr_name(&param.name) && is_good_kind(&param.kind)
}

fn are_sound_rules(all: &[SpaceRule]) -> bool
    ensures { result ≡ list_all (λ r. is_sound_name_test r.test) all.now }
{
    for rule in all {
        if !is_sound_name_test(&rule.test) {
            return false;
        }
    }
    true
}
