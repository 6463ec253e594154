// What templates and functions use.
ghost use Rattle.std.specs.Prelude.{◌≡◌, IfOk, OnOk, map};
ghost use Rattle.name_rules.specs.Scopes.{with_names};
ghost use Rattle.sheet_uses.specs.Exprs.{binders_in, behind};
ghost use Rattle.sheet_uses.specs.Bodies.{param_uses, callee_uses};

use crate::bodies::{push_body_uses, push_bound_uses};
use crate::uses::Use;
use name_rules::VariableScope;
use std::alloc::AllocError;
use xt_names::List;
use xt_sheets::{Bound, Instr};

fn with_param(scope: VariableScope, param: &Bound) -> Result<VariableScope, AllocError>
    ensures { IfOk result (λ inner. inner ≡ with_names scope (param_uses param.now).names) }
{
    scope.with(param.name.copy()?)
}

fn push_params(
    params: &[Bound],
    scope: &VariableScope,
    found: &mut List<Use>,
) -> Result<VariableScope, AllocError>
    ensures found { IfOk result (λ inner. found.new
        ≡ binders_in (map param_uses params.now) scope.now found.old) }
    ensures scope { IfOk result (λ inner. inner ≡ behind (map param_uses params.now) scope.now) }
{
    let mut inner = scope.inside()?;
    for param in params {
        push_bound_uses(param, &inner, found)?;
        inner = with_param(inner, param)?;
    }
    Ok(inner)
}

/// Puts what a template or a function with these parameters and this content uses after the others:
/// the default of each parameter sees those before it, and the content sees all (XSLT 2.0, 10.1 and
/// 10.3).
pub fn push_callee_uses(
    params: &[Bound],
    body: &[Instr],
    scope: &VariableScope,
    found: &mut List<Use>,
) -> Result<(), AllocError>
    ensures { OnOk result (found.new ≡ callee_uses params.now body.now scope.now found.old) }
{
    let inner = push_params(params, scope, found)?;
    push_body_uses(body, &inner, found)
}
