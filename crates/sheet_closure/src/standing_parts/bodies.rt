// Instructions.
ghost use Rattle.std.specs.Prelude.{◌≡◌, IfOk, map};
ghost use Rattle.name_rules.specs.Scopes.{names_differ};
ghost use Rattle.sheet_closure.specs.StandingParts.Bodies.{all_stand, is_one_source, bound_names, values_stand};
ghost use Rattle.sheet_closure.specs.StandingParts.Bodies.{is_given, all_given, passed_stand, instr_stands};
ghost use Rattle.sheet_closure.specs.StandingParts.Bodies.{value_stands, bound_stands, when_stands};
ghost use Rattle.sheet_closure.specs.StandingParts.Bodies.{body_stands, params_stand};

use crate::standing_parts::calls::expr_stands;
use crate::standing_parts::values::{
    attributes_stand, grouping_stands, if_expr_stands, if_template_stands, sorts_stand,
    template_stands,
};
use name_rules::names_differ;
use std::alloc::{AllocError, Global};
use xt_names::{ExprName, List, Shared};
use xt_sheets::{Bound, Instr, Value, When};
use xt_syntax::Expr;

/// Whether there is no `select` beside content.
fn is_one_source(select: &Option<Shared<Expr>>, body: &List<Instr>) -> bool
    ensures { result ≡ is_one_source select.now body.now }
{
    select.is_none() || body.is_empty()
}

#[cycle(stands)]
fn instr_stands(alloc: Global, grouped: bool, instr: &Instr) -> Result<bool, AllocError>
    ensures { IfOk result (λ stands. stands ≡ instr_stands instr.now grouped) }
{
    match instr {
        Instr::Chars(_) => Ok(true),
        Instr::ValueOf(select, body, separator) => Ok(
            is_one_source(select, body.get())
                && if_expr_stands(alloc, grouped, select)?
                && if_template_stands(alloc, grouped, separator)?
                && body_stands(alloc, grouped, body.get().as_slice())?,
        ),
        Instr::Literal(_, attrs, body) => Ok(
            attributes_stand(alloc, grouped, attrs.get().as_slice())?
                && body_stands(alloc, grouped, body.get().as_slice())?,
        ),
        Instr::Element(name, body) => Ok(
            template_stands(alloc, grouped, name.text.get())?
                && body_stands(alloc, grouped, body.get().as_slice())?,
        ),
        Instr::Attribute(name, select, body, separator) => Ok(
            is_one_source(select, body.get())
                && template_stands(alloc, grouped, name.text.get())?
                && if_expr_stands(alloc, grouped, select)?
                && if_template_stands(alloc, grouped, separator)?
                && body_stands(alloc, grouped, body.get().as_slice())?,
        ),
        Instr::Comment(select, body) => Ok(
            is_one_source(select, body.get())
                && if_expr_stands(alloc, grouped, select)?
                && body_stands(alloc, grouped, body.get().as_slice())?,
        ),
        Instr::Pi(name, select, body) => Ok(
            is_one_source(select, body.get())
                && template_stands(alloc, grouped, name.get())?
                && if_expr_stands(alloc, grouped, select)?
                && body_stands(alloc, grouped, body.get().as_slice())?,
        ),
        Instr::Document(body) | Instr::Copy(body) => {
            body_stands(alloc, grouped, body.get().as_slice())
        }
        Instr::CopyOf(e) | Instr::Sequence(e) => expr_stands(alloc, grouped, e.get()),
        Instr::If(test, body) => Ok(
            expr_stands(alloc, grouped, test.get())?
                && body_stands(alloc, grouped, body.get().as_slice())?,
        ),
        Instr::Choose(whens, other) => Ok(
            whens_stand(alloc, grouped, whens.get().as_slice())?
                && body_stands(alloc, grouped, other.get().as_slice())?,
        ),
        Instr::ForEach(select, sorts, body) => Ok(
            expr_stands(alloc, grouped, select.get())?
                && sorts_stand(alloc, grouped, sorts.get().as_slice())?
                && body_stands(alloc, grouped, body.get().as_slice())?,
        ),
        Instr::ForEachGroup(select, grouping, sorts, body) => {
            Ok(
                expr_stands(alloc, grouped, select.get())?
                    && grouping_stands(alloc, grouped, grouping)?
                    && sorts_stand(alloc, true, sorts.get().as_slice())?
                    && body_stands(alloc, true, body.get().as_slice())?,
            )
        }
        Instr::PerformSort(select, sorts, body) => Ok(
            is_one_source(select, body.get())
                && if_expr_stands(alloc, grouped, select)?
                && sorts_stand(alloc, grouped, sorts.get().as_slice())?
                && body_stands(alloc, grouped, body.get().as_slice())?,
        ),
        Instr::Variable(bound) => is_given(alloc, grouped, bound),
        Instr::Apply(select, _, sorts, params) => Ok(
            if_expr_stands(alloc, grouped, select)?
                && sorts_stand(alloc, grouped, sorts.get().as_slice())?
                && passed_stand(alloc, grouped, params.get().as_slice())?,
        ),
        Instr::ApplyImports(params) | Instr::NextMatch(params) | Instr::CallTemplate(_, params) => {
            passed_stand(alloc, grouped, params.get().as_slice())
        }
    }
}

/// Whether the parts of the instructions may stand where they do, as deep as they stand in the
/// sequence, within an `xsl:for-each-group` or outside of one (XSLT 2.0, 5.7).
#[cycle(stands)]
pub fn body_stands(alloc: Global, grouped: bool, all: &[Instr]) -> Result<bool, AllocError>
    ensures { IfOk result (λ stands. stands ≡ body_stands all.now grouped) }
{
    for instr in all {
        if !instr_stands(alloc, grouped, instr)? {
            return Ok(false);
        }
    }
    Ok(true)
}

#[cycle(stands)]
fn whens_stand(alloc: Global, grouped: bool, all: &[When]) -> Result<bool, AllocError>
    ensures { IfOk result (λ stand. stand ≡ all_stand (map when_stands all.now) grouped) }
{
    for when in all {
        if !when_stands(alloc, grouped, when)? {
            return Ok(false);
        }
    }
    Ok(true)
}

#[cycle(stands)]
fn when_stands(alloc: Global, grouped: bool, when: &When) -> Result<bool, AllocError>
    ensures { IfOk result (λ stands. stands ≡ when_stands when.now grouped) }
{
    Ok(
        expr_stands(alloc, grouped, when.test.get())?
            && body_stands(alloc, grouped, when.body.get().as_slice())?,
    )
}

fn bound_names(alloc: Global, bounds: &[Bound]) -> Result<List<ExprName>, AllocError>
    ensures { IfOk result (λ names. names ≡ bound_names (map bound_stands bounds.now)) }
{
    let mut names = List::new(alloc);
    for bound in bounds {
        names.push(bound.name.copy()?)?;
    }
    Ok(names)
}

fn have_different_names(alloc: Global, bounds: &[Bound]) -> Result<bool, AllocError>
    ensures { IfOk result (λ differ. differ
        ≡ names_differ (bound_names (map bound_stands bounds.now))) }
{
    let names = bound_names(alloc, bounds)?;
    names_differ(&names)
}

/// Whether it has no value, since it is a parameter that is required.
pub(crate) fn is_required(bound: &Bound) -> bool
    ensures { result ≡ (bound_stands bound.now).value.required }
{
    matches!(&bound.value, Value::Required)
}

#[cycle(stands)]
fn is_given(alloc: Global, grouped: bool, bound: &Bound) -> Result<bool, AllocError>
    ensures { IfOk result (λ given. given ≡ is_given (bound_stands bound.now) grouped) }
{
    Ok(!is_required(bound) && bound_stands(alloc, grouped, bound)?)
}

#[cycle(stands)]
fn all_given(alloc: Global, grouped: bool, all: &[Bound]) -> Result<bool, AllocError>
    ensures { IfOk result (λ given. given ≡ all_given (map bound_stands all.now) grouped) }
{
    for bound in all {
        if !is_given(alloc, grouped, bound)? {
            return Ok(false);
        }
    }
    Ok(true)
}

#[cycle(stands)]
fn passed_stand(alloc: Global, grouped: bool, all: &[Bound]) -> Result<bool, AllocError>
    ensures { IfOk result (λ stand. stand ≡ passed_stand (map bound_stands all.now) grouped) }
{
    Ok(have_different_names(alloc, all)? && all_given(alloc, grouped, all)?)
}

/// Whether what the variable or parameter is bound to may be there (XSLT 2.0, 9.3).
#[cycle(stands)]
pub(crate) fn bound_stands(alloc: Global, grouped: bool, bound: &Bound) -> Result<bool, AllocError>
    ensures { IfOk result (λ stands. stands ≡ (bound_stands bound.now).value.stands grouped) }
{
    value_stands(alloc, grouped, &bound.value)
}

#[cycle(stands)]
fn value_stands(alloc: Global, grouped: bool, value: &Value) -> Result<bool, AllocError>
    ensures { IfOk result (λ stands. stands ≡ (value_stands value.now).stands grouped) }
{
    match value {
        Value::Select(e) => expr_stands(alloc, grouped, e.get()),
        Value::Body(body) => body_stands(alloc, grouped, body.get().as_slice()),
        Value::EmptyText | Value::EmptyList | Value::Required => Ok(true),
    }
}

fn values_stand(alloc: Global, grouped: bool, all: &[Bound]) -> Result<bool, AllocError>
    ensures { IfOk result (λ stand. stand ≡ values_stand (map bound_stands all.now) grouped) }
{
    for bound in all {
        if !bound_stands(alloc, grouped, bound)? {
            return Ok(false);
        }
    }
    Ok(true)
}

/// Whether no two of the parameters of a template or a function have one name, and their defaults
/// may be there (XSLT 2.0, 10.1 and 10.3). They may be required.
pub fn params_stand(alloc: Global, grouped: bool, all: &[Bound]) -> Result<bool, AllocError>
    ensures { IfOk result (λ stand. stand ≡ params_stand all.now grouped) }
{
    Ok(have_different_names(alloc, all)? && values_stand(alloc, grouped, all)?)
}
