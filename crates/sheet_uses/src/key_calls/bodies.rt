// Grouping keys within sequence constructors.
ghost use Rattle.std.specs.Prelude.{◌≡◌, OnOk, map};
ghost use Rattle.sheet_uses.specs.KeyCalls.Bodies.{instr_keys, value_keys, bound_keys, when_keys, body_keys};
ghost use Rattle.sheet_uses.specs.KeyCalls.Bodies.{callee_keys};
ghost use Rattle.sheet_uses.specs.KeyCalls.Bodies.{grouping_keys};
ghost use Rattle.sheet_uses.specs.Exprs.{all_in};

use crate::{Use, push_expr_uses};
use name_rules::VariableScope;
use std::alloc::AllocError;
use xt_names::List;
use xt_sheets::{Bound, Grouping, Instr, Value, When};

#[tactic(auto, unfolding(crate::specs::KeyCalls::Bodies::grouping_keys))]
fn push_grouping(
    grouping: &Grouping,
    scope: &VariableScope,
    found: &mut List<Use>,
) -> Result<(), AllocError>
    ensures { OnOk result (found.new ≡ grouping_keys grouping.now scope.now found.old) }
{
    match grouping {
        Grouping::By(e) | Grouping::Adjacent(e) => push_expr_uses(e.get(), scope, found),
        Grouping::Starting(_) => Ok(()),
    }
}

#[cycle(keys)]
fn push_instr(instr: &Instr, scope: &VariableScope, found: &mut List<Use>) -> Result<(), AllocError>
    ensures { OnOk result (found.new ≡ instr_keys instr.now scope.now found.old) }
{
    match instr {
        Instr::Chars(_) | Instr::CopyOf(_) | Instr::Sequence(_) => Ok(()),
        Instr::ValueOf(_, body, _)
        | Instr::Literal(_, _, body)
        | Instr::Element(_, body)
        | Instr::Attribute(_, _, body, _)
        | Instr::Comment(_, body)
        | Instr::Pi(_, _, body)
        | Instr::Document(body)
        | Instr::Copy(body)
        | Instr::If(_, body)
        | Instr::ForEach(_, _, body)
        | Instr::PerformSort(_, _, body) => push_body_keys(body.get().as_slice(), scope, found),
        Instr::Choose(whens, other) => {
            push_whens(whens.get().as_slice(), scope, found)?;
            push_body_keys(other.get().as_slice(), scope, found)
        }
        Instr::ForEachGroup(_, grouping, _, body) => {
            push_grouping(grouping, scope, found)?;
            push_body_keys(body.get().as_slice(), scope, found)
        }
        Instr::Variable(bound) => push_bound_keys(bound, scope, found),
        Instr::Apply(_, _, _, params)
        | Instr::ApplyImports(params)
        | Instr::NextMatch(params)
        | Instr::CallTemplate(_, params) => push_bounds(params.get().as_slice(), scope, found),
    }
}

/// Puts what the grouping keys within the sequence constructor use after the others, in reading
/// order (XSLT 2.0, 14.3); variables in the scope are not told.
#[cycle(keys)]
pub fn push_body_keys(
    all: &[Instr],
    scope: &VariableScope,
    found: &mut List<Use>,
) -> Result<(), AllocError>
    ensures { OnOk result (found.new ≡ body_keys all.now scope.now found.old) }
{
    for instr in all {
        push_instr(instr, scope, found)?;
    }
    Ok(())
}

#[cycle(keys)]
fn push_whens(all: &[When], scope: &VariableScope, found: &mut List<Use>) -> Result<(), AllocError>
    ensures { OnOk result (found.new ≡ all_in (map when_keys all.now) scope.now found.old) }
{
    for when in all {
        push_when(when, scope, found)?;
    }
    Ok(())
}

#[cycle(keys)]
fn push_when(when: &When, scope: &VariableScope, found: &mut List<Use>) -> Result<(), AllocError>
    ensures { OnOk result (found.new ≡ when_keys when.now scope.now found.old) }
{
    push_body_keys(when.body.get().as_slice(), scope, found)
}

#[cycle(keys)]
fn push_bounds(
    all: &[Bound],
    scope: &VariableScope,
    found: &mut List<Use>,
) -> Result<(), AllocError>
    ensures { OnOk result (found.new ≡ all_in (map bound_keys all.now) scope.now found.old) }
{
    for bound in all {
        push_bound_keys(bound, scope, found)?;
    }
    Ok(())
}

/// Puts what the grouping keys within the value of the variable or parameter use after the others
/// (XSLT 2.0, 9.3).
#[cycle(keys)]
pub fn push_bound_keys(
    bound: &Bound,
    scope: &VariableScope,
    found: &mut List<Use>,
) -> Result<(), AllocError>
    ensures { OnOk result (found.new ≡ bound_keys bound.now scope.now found.old) }
{
    push_value(&bound.value, scope, found)
}

#[cycle(keys)]
fn push_value(value: &Value, scope: &VariableScope, found: &mut List<Use>) -> Result<(), AllocError>
    ensures { OnOk result (found.new ≡ value_keys value.now scope.now found.old) }
{
    match value {
        Value::Body(body) => push_body_keys(body.get().as_slice(), scope, found),
        Value::Select(_) | Value::EmptyText | Value::EmptyList | Value::Required => Ok(()),
    }
}

/// Puts what the grouping keys within a template or a function with these parameters and this
/// content use after the others (XSLT 2.0, 10.1 and 10.3).
pub fn push_callee_keys(
    params: &[Bound],
    body: &[Instr],
    scope: &VariableScope,
    found: &mut List<Use>,
) -> Result<(), AllocError>
    ensures { OnOk result (found.new ≡ callee_keys params.now body.now scope.now found.old) }
{
    push_bounds(params, scope, found)?;
    push_body_keys(body, scope, found)
}
