// Single names, and what a clause binds.
ghost use Rattle.std.specs.Prelude.{◌≡◌, IfOk, List};
ghost use Rattle.name_rules.specs.Broken.{variable_in, function_in, bind_binder, clause_binder, place_names};
ghost use Rattle.name_rules.specs.Faults.{first};
ghost use Rattle.name_rules.specs.Scopes.{with_names};
ghost use Rattle.name_rules.specs.declared.functions.Signature.{Signature};

use crate::functions::Functions;
use crate::scopes::VariableScope;
use std::alloc::AllocError;
use xt_names::{Code, ExprName, QueryStaticCode};
use xt_syntax::{Bind, Clause};

#[tactic(auto, unfolding(crate::specs::Broken::variable_in, crate::specs::Faults::first))]
pub(crate) fn check_variable(name: &ExprName, scope: &VariableScope) -> Option<Code>
    ensures { result ≡ first (variable_in name.now scope.now) }
{
    if scope.has(name) {
        None
    } else {
        Some(Code::QueryStatic(QueryStaticCode::XPST0008))
    }
}

#[tactic(auto, unfolding(crate::specs::Broken::function_in, crate::specs::Faults::first))]
pub(crate) fn check_function(
    name: &ExprName,
    arity: usize,
    functions: &Functions,
) -> Result<Option<Code>, AllocError>
    ensures { IfOk result (λ fault. fault ≡ first (function_in functions.now name.now arity)) }
{
    if functions.may_be_called(name, arity)? {
        Ok(None)
    } else {
        Ok(Some(Code::QueryStatic(QueryStaticCode::XPST0017)))
    }
}

/// The scope with the variable too.
pub(crate) fn with_bind(scope: VariableScope, bind: &Bind) -> Result<VariableScope, AllocError>
    ensures { IfOk result (λ inner. (fs : List Signature) → inner ≡ with_names scope (bind_binder fs bind.now).names) }
{
    scope.with(bind.var.copy()?)
}

/// The scope with the variables of the clause too.
pub(crate) fn with_clause(
    scope: VariableScope,
    clause: &Clause,
) -> Result<VariableScope, AllocError>
    ensures { IfOk result (λ inner. (fs : List Signature) → inner ≡ with_names scope (clause_binder fs clause.now).names) }
{
    match clause {
        Clause::For(bind, place) => {
            let scope = scope.with(bind.var.copy()?)?;
            with_place(scope, place)
        }
        Clause::Let(bind) => scope.with(bind.var.copy()?),
    }
}

fn with_place(scope: VariableScope, place: &Option<ExprName>) -> Result<VariableScope, AllocError>
    ensures { IfOk result (λ inner. inner ≡ with_names scope (place_names place.now)) }
{
    match place {
        None => Ok(scope),
        Some(name) => scope.with(name.copy()?),
    }
}
