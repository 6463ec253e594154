// Instructions with good parts.
ghost use Rattle.std.specs.Prelude.{◌≡◌, map};
ghost use Rattle.xt_forms.specs.Regular.{every};
ghost use Rattle.closed_sheets.specs.Instrs.{is_good_instr, is_good_when, is_good_bound};
ghost use Rattle.closed_sheets.specs.Instrs.{is_good_bound_value, is_good_body};

use crate::values::{
    are_good_attributes, are_good_sorts, if_good_template, if_sheet_expr, is_good_grouping,
    is_good_kind, is_good_name, is_good_template, is_sheet_expr,
};
use closed_queries::{is_sound_expr_name, is_sound_name};
use xt_names::is_xml_text;
use xt_sheets::{Bound, Instr, Value, When};

#[cycle(good)]
fn is_good_instr(instr: &Instr) -> bool
    ensures { result ≡ is_good_instr instr.now }
{
    match instr {
        Instr::Chars(text) => is_xml_text(text.as_str()),
        Instr::ValueOf(select, body, separator) => if_sheet_expr(select)
            && is_good_body(body.get().as_slice())
            && if_good_template(separator),
        Instr::Literal(name, attrs, body) => is_sound_name(name)
            && are_good_attributes(attrs.get().as_slice())
            && is_good_body(body.get().as_slice()),
        Instr::Element(name, body) => is_good_name(name) && is_good_body(body.get().as_slice()),
        Instr::Attribute(name, select, body, separator) => is_good_name(name)
            && if_sheet_expr(select)
            && is_good_body(body.get().as_slice())
            && if_good_template(separator),
        Instr::Comment(select, body) => if_sheet_expr(select)
            && is_good_body(body.get().as_slice()),
        Instr::Pi(name, select, body) => is_good_template(name.get())
            && if_sheet_expr(select)
            && is_good_body(body.get().as_slice()),
        Instr::Document(body) | Instr::Copy(body) => is_good_body(body.get().as_slice()),
        Instr::CopyOf(e) | Instr::Sequence(e) => is_sheet_expr(e.get()),
        Instr::If(test, body) => is_sheet_expr(test.get()) && is_good_body(body.get().as_slice()),
        Instr::Choose(whens, other) => are_good_whens(whens.get().as_slice())
            && is_good_body(other.get().as_slice()),
        Instr::ForEach(select, sorts, body) => is_sheet_expr(select.get())
            && are_good_sorts(sorts.get().as_slice())
            && is_good_body(body.get().as_slice()),
        Instr::ForEachGroup(select, grouping, sorts, body) => is_sheet_expr(select.get())
            && is_good_grouping(grouping)
            && are_good_sorts(sorts.get().as_slice())
            && is_good_body(body.get().as_slice()),
        Instr::PerformSort(select, sorts, body) => if_sheet_expr(select)
            && are_good_sorts(sorts.get().as_slice())
            && is_good_body(body.get().as_slice()),
        Instr::Variable(bound) => is_good_bound(bound),
        Instr::Apply(select, _, sorts, params) => if_sheet_expr(select)
            && are_good_sorts(sorts.get().as_slice())
            && are_good_bounds(params.get().as_slice()),
        Instr::ApplyImports(params) | Instr::NextMatch(params) | Instr::CallTemplate(_, params) => {
            are_good_bounds(params.get().as_slice())
        }
    }
}

/// Whether each instruction of the sequence has regular expressions of XPath, regular types, and
/// texts and names that XML allows, as deep as they stand in it (XSLT 2.0, 5.7).
#[cycle(good)]
pub fn is_good_body(all: &[Instr]) -> bool
    ensures { result ≡ is_good_body all.now }
{
    for instr in all {
        if !is_good_instr(instr) {
            return false;
        }
    }
    true
}

#[cycle(good)]
fn are_good_whens(all: &[When]) -> bool
    ensures { result ≡ every (map is_good_when all.now) }
{
    for when in all {
        if !is_good_when(when) {
            return false;
        }
    }
    true
}

#[cycle(good)]
fn is_good_when(when: &When) -> bool
    ensures { result ≡ is_good_when when.now }
{
    is_sheet_expr(when.test.get()) && is_good_body(when.body.get().as_slice())
}

/// Whether each variable or parameter is good, as `is_good_bound` tells.
#[cycle(good)]
pub fn are_good_bounds(all: &[Bound]) -> bool
    ensures { result ≡ every (map is_good_bound all.now) }
{
    for bound in all {
        if !is_good_bound(bound) {
            return false;
        }
    }
    true
}

/// Whether XML allows the name of the variable or parameter, its type is regular, and what it is bound
/// to has regular expressions of XPath, regular types, and texts and names that XML allows (XSLT 2.0,
/// 9).
#[cycle(good)]
pub fn is_good_bound(bound: &Bound) -> bool
    ensures { result ≡ is_good_bound bound.now }
{
    is_sound_expr_name(&bound.name)
        && is_good_kind(&bound.kind)
        && is_good_bound_value(&bound.value)
}

#[cycle(good)]
fn is_good_bound_value(value: &Value) -> bool
    ensures { result ≡ is_good_bound_value value.now }
{
    match value {
        Value::Select(e) => is_sheet_expr(e.get()),
        Value::Body(body) => is_good_body(body.get().as_slice()),
        Value::EmptyText | Value::EmptyList | Value::Required => true,
    }
}
