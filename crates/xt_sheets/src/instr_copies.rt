// Copies share the parts.
ghost use Rattle.std.specs.Prelude.{◌≡◌, IfOk};
ghost use Rattle.xt_sheets.specs.declared.instrs.Instr.TheVariants.{ValueOf, Literal, Attribute, Pi, ForEach, ForEachGroup, PerformSort, Apply};

use crate::instrs::{Bound, Instr, Value, When};
use crate::values::{Avt, AvtName, Grouping, LiteralAttr, ModeUse, Sort};
use std::alloc::AllocError;
use xt_names::{List, Name, Share, Shared, copy_list};
use xt_syntax::copy_shared_option;
use xt_syntax::xt_types::copy_option;

impl<E: Drop, P: Drop> Instr<E, P> {
    /// The same instruction.
    pub fn copy(&self) -> Result<Instr<E, P>, AllocError>
        ensures { IfOk result (λ copy. copy ≡ self.now) }
    {
        match self {
            Instr::Chars(text) => Ok(Instr::Chars(text.copy()?)),
            Instr::ValueOf(select, body, separator) => copy_value_of(select, body, separator),
            Instr::Literal(name, attrs, body) => copy_literal(name, attrs, body),
            Instr::Element(name, body) => Ok(Instr::Element(name.copy()?, body.copy()?)),
            Instr::Attribute(name, select, body, separator) => {
                copy_attribute(name, select, body, separator)
            }
            Instr::Comment(select, body) => Ok(Instr::Comment(
                copy_shared_option(select)?,
                body.copy()?,
            )),
            Instr::Pi(name, select, body) => copy_pi(name, select, body),
            Instr::Document(body) => Ok(Instr::Document(body.copy()?)),
            Instr::Copy(body) => Ok(Instr::Copy(body.copy()?)),
            Instr::CopyOf(e) => Ok(Instr::CopyOf(e.copy()?)),
            Instr::Sequence(e) => Ok(Instr::Sequence(e.copy()?)),
            Instr::If(test, body) => Ok(Instr::If(test.copy()?, body.copy()?)),
            Instr::Choose(whens, other) => Ok(Instr::Choose(whens.copy()?, other.copy()?)),
            Instr::ForEach(select, sorts, body) => copy_for_each(select, sorts, body),
            Instr::ForEachGroup(select, grouping, sorts, body) => {
                copy_for_each_group(select, grouping, sorts, body)
            }
            Instr::PerformSort(select, sorts, body) => copy_perform_sort(select, sorts, body),
            Instr::Variable(bound) => Ok(Instr::Variable(bound.copy()?)),
            Instr::Apply(select, mode, sorts, params) => copy_apply(select, *mode, sorts, params),
            Instr::ApplyImports(params) => Ok(Instr::ApplyImports(params.copy()?)),
            Instr::NextMatch(params) => Ok(Instr::NextMatch(params.copy()?)),
            Instr::CallTemplate(place, params) => Ok(Instr::CallTemplate(*place, params.copy()?)),
        }
    }
}

fn copy_value_of<E: Drop, P: Drop>(
    select: &Option<Shared<E>>,
    body: &Shared<List<Instr<E, P>>>,
    separator: &Option<Shared<Avt<E>>>,
) -> Result<Instr<E, P>, AllocError>
    ensures { IfOk result (λ copy. copy ≡ ValueOf select.now body.now separator.now) }
{
    Ok(Instr::ValueOf(
        copy_shared_option(select)?,
        body.copy()?,
        copy_shared_option(separator)?,
    ))
}

fn copy_literal<E: Drop, P: Drop>(
    name: &Name,
    attrs: &Shared<List<LiteralAttr<E>>>,
    body: &Shared<List<Instr<E, P>>>,
) -> Result<Instr<E, P>, AllocError>
    ensures { IfOk result (λ copy. copy ≡ Literal name.now attrs.now body.now) }
{
    Ok(Instr::Literal(name.copy()?, attrs.copy()?, body.copy()?))
}

fn copy_attribute<E: Drop, P: Drop>(
    name: &AvtName<E>,
    select: &Option<Shared<E>>,
    body: &Shared<List<Instr<E, P>>>,
    separator: &Option<Shared<Avt<E>>>,
) -> Result<Instr<E, P>, AllocError>
    ensures { IfOk result (λ copy. copy ≡ Attribute name.now select.now body.now separator.now) }
{
    Ok(Instr::Attribute(
        name.copy()?,
        copy_shared_option(select)?,
        body.copy()?,
        copy_shared_option(separator)?,
    ))
}

fn copy_pi<E: Drop, P: Drop>(
    name: &Shared<Avt<E>>,
    select: &Option<Shared<E>>,
    body: &Shared<List<Instr<E, P>>>,
) -> Result<Instr<E, P>, AllocError>
    ensures { IfOk result (λ copy. copy ≡ Pi name.now select.now body.now) }
{
    Ok(Instr::Pi(name.copy()?, copy_shared_option(select)?, body.copy()?))
}

fn copy_for_each<E: Drop, P: Drop>(
    select: &Shared<E>,
    sorts: &Shared<List<Sort<E>>>,
    body: &Shared<List<Instr<E, P>>>,
) -> Result<Instr<E, P>, AllocError>
    ensures { IfOk result (λ copy. copy ≡ ForEach select.now sorts.now body.now) }
{
    Ok(Instr::ForEach(select.copy()?, sorts.copy()?, body.copy()?))
}

fn copy_for_each_group<E: Drop, P: Drop>(
    select: &Shared<E>,
    grouping: &Grouping<E, P>,
    sorts: &Shared<List<Sort<E>>>,
    body: &Shared<List<Instr<E, P>>>,
) -> Result<Instr<E, P>, AllocError>
    ensures { IfOk result (λ copy. copy ≡ ForEachGroup select.now grouping.now sorts.now body.now) }
{
    Ok(Instr::ForEachGroup(
        select.copy()?,
        grouping.copy()?,
        sorts.copy()?,
        body.copy()?,
    ))
}

fn copy_perform_sort<E: Drop, P: Drop>(
    select: &Option<Shared<E>>,
    sorts: &Shared<List<Sort<E>>>,
    body: &Shared<List<Instr<E, P>>>,
) -> Result<Instr<E, P>, AllocError>
    ensures { IfOk result (λ copy. copy ≡ PerformSort select.now sorts.now body.now) }
{
    Ok(Instr::PerformSort(copy_shared_option(select)?, sorts.copy()?, body.copy()?))
}

fn copy_apply<E: Drop, P: Drop>(
    select: &Option<Shared<E>>,
    mode: ModeUse,
    sorts: &Shared<List<Sort<E>>>,
    params: &Shared<List<Bound<E, P>>>,
) -> Result<Instr<E, P>, AllocError>
    ensures { IfOk result (λ copy. copy ≡ Apply select.now mode sorts.now params.now) }
{
    Ok(Instr::Apply(
        copy_shared_option(select)?,
        mode,
        sorts.copy()?,
        params.copy()?,
    ))
}

impl<E: Drop, P: Drop> When<E, P> {
    /// The same test and content.
    pub fn copy(&self) -> Result<When<E, P>, AllocError>
        ensures { IfOk result (λ copy. copy ≡ self.now) }
    {
        Ok(When {
            test: self.test.copy()?,
            body: self.body.copy()?,
        })
    }
}

impl<E: Drop, P: Drop> Bound<E, P> {
    /// The same variable or parameter.
    pub fn copy(&self) -> Result<Bound<E, P>, AllocError>
        ensures { IfOk result (λ copy. copy ≡ self.now) }
    {
        Ok(Bound {
            name: self.name.copy()?,
            kind: copy_option(&self.kind)?,
            value: self.value.copy()?,
            tunnel: self.tunnel,
        })
    }
}

impl<E: Drop, P: Drop> Value<E, P> {
    /// The same value.
    pub fn copy(&self) -> Result<Value<E, P>, AllocError>
        ensures { IfOk result (λ copy. copy ≡ self.now) }
    {
        match self {
            Value::Select(e) => Ok(Value::Select(e.copy()?)),
            Value::Body(body) => Ok(Value::Body(body.copy()?)),
            Value::EmptyText => Ok(Value::EmptyText),
            Value::EmptyList => Ok(Value::EmptyList),
            Value::Required => Ok(Value::Required),
        }
    }
}

impl<E: Drop, P: Drop> Share for Instr<E, P> {
    fn share(&self) -> Result<Instr<E, P>, AllocError> {
        self.copy()
    }
}

impl<E: Drop, P: Drop> Share for When<E, P> {
    fn share(&self) -> Result<When<E, P>, AllocError> {
        self.copy()
    }
}

impl<E: Drop, P: Drop> Share for Bound<E, P> {
    fn share(&self) -> Result<Bound<E, P>, AllocError> {
        self.copy()
    }
}

impl<E: Drop, P: Drop> Share for Value<E, P> {
    fn share(&self) -> Result<Value<E, P>, AllocError> {
        self.copy()
    }
}

/// The list of the same instructions.
pub fn copy_instr_list<E: Drop, P: Drop>(
    items: &List<Instr<E, P>>,
) -> Result<List<Instr<E, P>>, AllocError>
    ensures { IfOk result (λ copy. copy ≡ items.now) }
{
    copy_list(items)
}

/// The list of the same tests and contents.
pub fn copy_when_list<E: Drop, P: Drop>(
    items: &List<When<E, P>>,
) -> Result<List<When<E, P>>, AllocError>
    ensures { IfOk result (λ copy. copy ≡ items.now) }
{
    copy_list(items)
}

/// The list of the same variables or parameters.
pub fn copy_bound_list<E: Drop, P: Drop>(
    items: &List<Bound<E, P>>,
) -> Result<List<Bound<E, P>>, AllocError>
    ensures { IfOk result (λ copy. copy ≡ items.now) }
{
    copy_list(items)
}

/// The list of the same values.
pub fn copy_value_list<E: Drop, P: Drop>(
    items: &List<Value<E, P>>,
) -> Result<List<Value<E, P>>, AllocError>
    ensures { IfOk result (λ copy. copy ≡ items.now) }
{
    copy_list(items)
}
