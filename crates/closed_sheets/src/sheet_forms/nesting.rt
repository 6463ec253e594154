// How deep instructions nest.
ghost use Rattle.std.specs.Prelude.{◌≡◌, min, map};
ghost use Rattle.xt_names.specs.Lists.{greatest};
ghost use Rattle.closed_sheets.specs.SheetForms.InstrNest.{nested_of, instr_nest_of, body_nest_of, when_nest_of, bound_nest_of, value_nest_of};

use xt_sheets::instrs::{Bound, Instr, Value, When};

/// How many levels the instruction has, or the greatest number where it has more: 1 where no instruction is within it,
/// and otherwise 1 and the most that one within it has. In a sequence each `xsl:variable` adds 1 to each instruction
/// after it. An `xsl:when`, an `xsl:otherwise` and a parameter that is passed are no level of their own.
#[cycle(nest)]
pub fn nest_instruction<E, P>(instr: &Instr<E, P>) -> u32
    ensures { result ≡ min (instr_nest_of instr.now) u32.MAX }
{
    match instr {
        Instr::Chars(_) | Instr::CopyOf(_) | Instr::Sequence(_) => 1,
        Instr::ValueOf(_, body, _)
        | Instr::Literal(_, _, body)
        | Instr::Element(_, body)
        | Instr::Attribute(_, _, body, _)
        | Instr::Comment(_, body)
        | Instr::Pi(_, _, body)
        | Instr::Document(body)
        | Instr::Copy(body)
        | Instr::If(_, body)
        | Instr::ForEach(_, _, body)
        | Instr::ForEachGroup(_, _, _, body)
        | Instr::PerformSort(_, _, body) => nest_body(body.get().as_slice()).saturating_add(1),
        Instr::Choose(whens, other) => nest_whens(whens.get().as_slice())
            .max(nest_body(other.get().as_slice()))
            .saturating_add(1),
        Instr::Variable(bound) => nest_bound(bound).saturating_add(1),
        Instr::Apply(_, _, _, params)
        | Instr::ApplyImports(params)
        | Instr::NextMatch(params)
        | Instr::CallTemplate(_, params) => nest_bounds(params.get().as_slice()).saturating_add(1),
    }
}

fn is_variable<E, P>(instr: &Instr<E, P>) -> bool
    ensures { result ≡ (nested_of instr.now).binds }
{
    matches!(instr, Instr::Variable(_))
}

/// How many levels the sequence has, or the greatest number where it has more: the most that one of its instructions has
/// with the number of variables before it, or 0 where it is empty.
#[cycle(nest)]
pub fn nest_body<E, P>(all: &[Instr<E, P>]) -> u32
    ensures { result ≡ min (body_nest_of all.now) u32.MAX }
{
    let mut most: u32 = 0;
    let mut before: u32 = 0;
    for instr in all {
        most = most.max(nest_instruction(instr).saturating_add(before));
        before = before.saturating_add(u32::from(is_variable(instr)));
    }
    most
}

#[cycle(nest)]
fn nest_whens<E, P>(all: &[When<E, P>]) -> u32
    ensures { result ≡ min (greatest (map when_nest_of all.now)) u32.MAX }
{
    let mut most: u32 = 0;
    for when in all {
        most = most.max(nest_body(when.body.get().as_slice()));
    }
    most
}

#[cycle(nest)]
pub(crate) fn nest_bounds<E, P>(all: &[Bound<E, P>]) -> u32
    ensures { result ≡ min (greatest (map bound_nest_of all.now)) u32.MAX }
{
    let mut most: u32 = 0;
    for bound in all {
        most = most.max(nest_bound(bound));
    }
    most
}

/// How many levels the content of a variable or parameter has, or the greatest number where it has more; 0 without content.
#[cycle(nest)]
pub fn nest_bound<E, P>(bound: &Bound<E, P>) -> u32
    ensures { result ≡ min (bound_nest_of bound.now) u32.MAX }
{
    nest_value(&bound.value)
}

#[cycle(nest)]
fn nest_value<E, P>(value: &Value<E, P>) -> u32
    ensures { result ≡ min (value_nest_of value.now) u32.MAX }
{
    match value {
        Value::Body(body) => nest_body(body.get().as_slice()),
        Value::Select(_) | Value::EmptyText | Value::EmptyList | Value::Required => 0,
    }
}
