// What sequence constructors use.
ghost use Rattle.std.specs.Prelude.{◌≡◌, ◌++◌, ◌∷◌, [], IfOk, OnOk, map};
ghost use Rattle.name_rules.specs.Scopes.{with_names};
ghost use Rattle.sheet_uses.specs.Exprs.{all_in};
ghost use Rattle.sheet_uses.specs.Bodies.{instr_uses, value_uses, bound_uses, when_uses, body_uses};
ghost use Rattle.sheet_uses.specs.Bodies.{sources_in, ordinary};
ghost use Rattle.sheet_uses.specs.declared.uses.Use.TheVariants.{Template};

use crate::exprs::push_expr_uses;
use crate::uses::Use;
use crate::values::{
    push_attributes, push_grouping, push_if_expr, push_if_template, push_sorts, push_template,
};
use name_rules::VariableScope;
use std::alloc::{AllocError, Global};
use xt_names::{ExprName, List};
use xt_sheets::{Bound, Instr, Value, When};

/// The scope with the variable that the instruction binds for those after it.
fn with_instr(scope: VariableScope, instr: &Instr) -> Result<VariableScope, AllocError>
    ensures { IfOk result (λ inner. inner ≡ with_names scope (instr_uses instr.now).names) }
{
    match instr {
        Instr::Variable(bound) => scope.with(bound.name.copy()?),
        Instr::Chars(_)
        | Instr::ValueOf(_, _, _)
        | Instr::Literal(_, _, _)
        | Instr::Element(_, _)
        | Instr::Attribute(_, _, _, _)
        | Instr::Comment(_, _)
        | Instr::Pi(_, _, _)
        | Instr::Document(_)
        | Instr::Copy(_)
        | Instr::CopyOf(_)
        | Instr::Sequence(_)
        | Instr::If(_, _)
        | Instr::Choose(_, _)
        | Instr::ForEach(_, _, _)
        | Instr::ForEachGroup(_, _, _, _)
        | Instr::PerformSort(_, _, _)
        | Instr::Apply(_, _, _, _)
        | Instr::ApplyImports(_)
        | Instr::NextMatch(_)
        | Instr::CallTemplate(_, _) => Ok(scope),
    }
}

/// The names of the parameters that are no tunnel parameters.
fn ordinary_names(alloc: Global, params: &[Bound]) -> Result<List<ExprName>, AllocError>
    ensures { IfOk result (λ names. names ≡ ordinary (map bound_uses params.now)) }
{
    let mut names = List::new(alloc);
    for param in params {
        if !param.tunnel {
            names.push(param.name.copy()?)?;
        }
    }
    Ok(names)
}

/// Puts the call of the template after the others.
fn push_call(number: u32, params: &[Bound], found: &mut List<Use>) -> Result<(), AllocError>
    ensures { OnOk result (found.new
        ≡ found.old ++ Template number (ordinary (map bound_uses params.now)) ∷ []) }
{
    let names = ordinary_names(found.allocator(), params)?;
    found.push(Use::Template(number, names))
}

#[cycle(uses)]
fn push_instr(instr: &Instr, scope: &VariableScope, found: &mut List<Use>) -> Result<(), AllocError>
    ensures { OnOk result (found.new ≡ (instr_uses instr.now).source scope.now found.old) }
{
    match instr {
        Instr::Chars(_) => Ok(()),
        Instr::ValueOf(select, body, separator) => {
            push_if_expr(select, scope, found)?;
            push_if_template(separator, scope, found)?;
            push_body_uses(body.get().as_slice(), scope, found)
        }
        Instr::Literal(_, attributes, body) => {
            push_attributes(attributes.get().as_slice(), scope, found)?;
            push_body_uses(body.get().as_slice(), scope, found)
        }
        Instr::Element(name, body) => {
            push_template(name.text.get(), scope, found)?;
            push_body_uses(body.get().as_slice(), scope, found)
        }
        Instr::Attribute(name, select, body, separator) => {
            push_template(name.text.get(), scope, found)?;
            push_if_expr(select, scope, found)?;
            push_if_template(separator, scope, found)?;
            push_body_uses(body.get().as_slice(), scope, found)
        }
        Instr::Comment(select, body) => {
            push_if_expr(select, scope, found)?;
            push_body_uses(body.get().as_slice(), scope, found)
        }
        Instr::Pi(name, select, body) => {
            push_template(name.get(), scope, found)?;
            push_if_expr(select, scope, found)?;
            push_body_uses(body.get().as_slice(), scope, found)
        }
        Instr::Document(body) | Instr::Copy(body) => {
            push_body_uses(body.get().as_slice(), scope, found)
        }
        Instr::CopyOf(e) | Instr::Sequence(e) => push_expr_uses(e.get(), scope, found),
        Instr::If(test, body) => {
            push_expr_uses(test.get(), scope, found)?;
            push_body_uses(body.get().as_slice(), scope, found)
        }
        Instr::Choose(whens, other) => {
            push_whens(whens.get().as_slice(), scope, found)?;
            push_body_uses(other.get().as_slice(), scope, found)
        }
        Instr::ForEach(select, sorts, body) => {
            push_expr_uses(select.get(), scope, found)?;
            push_sorts(sorts.get().as_slice(), scope, found)?;
            push_body_uses(body.get().as_slice(), scope, found)
        }
        Instr::ForEachGroup(select, grouping, sorts, body) => {
            push_expr_uses(select.get(), scope, found)?;
            push_grouping(grouping, scope, found)?;
            push_sorts(sorts.get().as_slice(), scope, found)?;
            push_body_uses(body.get().as_slice(), scope, found)
        }
        Instr::PerformSort(select, sorts, body) => {
            push_if_expr(select, scope, found)?;
            push_sorts(sorts.get().as_slice(), scope, found)?;
            push_body_uses(body.get().as_slice(), scope, found)
        }
        Instr::Variable(bound) => push_bound_uses(bound, scope, found),
        Instr::Apply(select, mode, sorts, params) => {
            found.push(Use::Apply(*mode))?;
            push_if_expr(select, scope, found)?;
            push_sorts(sorts.get().as_slice(), scope, found)?;
            push_bounds(params.get().as_slice(), scope, found)
        }
        Instr::ApplyImports(params) | Instr::NextMatch(params) => {
            push_bounds(params.get().as_slice(), scope, found)
        }
        Instr::CallTemplate(number, params) => {
            push_call(*number, params.get().as_slice(), found)?;
            push_bounds(params.get().as_slice(), scope, found)
        }
    }
}

/// Puts what the sequence constructor uses after the others, in reading order (XSLT 2.0, 5.7):
/// variables but for those in the scope and those that it binds itself, calls of functions and of
/// templates, and the modes in which templates are applied.
#[cycle(uses)]
pub fn push_body_uses(
    all: &[Instr],
    scope: &VariableScope,
    found: &mut List<Use>,
) -> Result<(), AllocError>
    ensures { OnOk result (found.new ≡ body_uses all.now scope.now found.old) }
{
    let mut inner = scope.inside()?;
    for instr in all {
        push_instr(instr, &inner, found)?;
        inner = with_instr(inner, instr)?;
    }
    Ok(())
}

#[cycle(uses)]
fn push_whens(all: &[When], scope: &VariableScope, found: &mut List<Use>) -> Result<(), AllocError>
    ensures { OnOk result (found.new ≡ all_in (map when_uses all.now) scope.now found.old) }
{
    for when in all {
        push_when(when, scope, found)?;
    }
    Ok(())
}

#[cycle(uses)]
fn push_when(when: &When, scope: &VariableScope, found: &mut List<Use>) -> Result<(), AllocError>
    ensures { OnOk result (found.new ≡ when_uses when.now scope.now found.old) }
{
    push_expr_uses(when.test.get(), scope, found)?;
    push_body_uses(when.body.get().as_slice(), scope, found)
}

#[cycle(uses)]
fn push_bounds(
    all: &[Bound],
    scope: &VariableScope,
    found: &mut List<Use>,
) -> Result<(), AllocError>
    ensures { OnOk result (found.new ≡ sources_in (map bound_uses all.now) scope.now found.old) }
{
    for bound in all {
        push_bound_uses(bound, scope, found)?;
    }
    Ok(())
}

/// Puts what the value of the variable or parameter uses after the others (XSLT 2.0, 9.3).
#[cycle(uses)]
pub fn push_bound_uses(
    bound: &Bound,
    scope: &VariableScope,
    found: &mut List<Use>,
) -> Result<(), AllocError>
    ensures { OnOk result (found.new ≡ (bound_uses bound.now).source scope.now found.old) }
{
    push_value(&bound.value, scope, found)
}

#[cycle(uses)]
fn push_value(value: &Value, scope: &VariableScope, found: &mut List<Use>) -> Result<(), AllocError>
    ensures { OnOk result (found.new ≡ value_uses value.now scope.now found.old) }
{
    match value {
        Value::Select(e) => push_expr_uses(e.get(), scope, found),
        Value::Body(body) => push_body_uses(body.get().as_slice(), scope, found),
        Value::EmptyText | Value::EmptyList | Value::Required => Ok(()),
    }
}
