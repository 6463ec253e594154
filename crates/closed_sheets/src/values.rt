// What attributes, names, sorts and patterns hold.
ghost use Rattle.std.specs.Prelude.{◌≡◌};
ghost use Rattle.std.specs.List.{list_all};
ghost use Rattle.closed_queries.specs.Closed.{is_good_kind, is_good_expr};
ghost use Rattle.closed_queries.specs.Texts.{is_sound_attribute_name, is_sound_target, is_sound_test};
ghost use Rattle.closed_queries.specs.Texts.{is_free_prefix, is_free_uri, is_free_binding};
ghost use Rattle.closed_sheets.specs.Values.{is_sheet_expr, if_sheet_expr, is_good_part};
ghost use Rattle.closed_sheets.specs.Values.{is_good_template, if_good_template, is_xml_binding};
ghost use Rattle.closed_sheets.specs.Values.{is_good_binding, is_good_name, is_good_attribute};
ghost use Rattle.closed_sheets.specs.Values.{is_good_sort, is_good_step, is_good_pattern};
ghost use Rattle.closed_sheets.specs.Values.{is_good_grouping};

use crate::forms::has_xpath_forms;
use closed_queries::{has_sound_texts, is_sound_name, is_sound_name_test, is_sound_type};
use xt_forms::is_regular;
use xt_names::{Binding, Name, Shared, Text, is_ascii_text, is_xml_text};
use xt_sheets::{Avt, AvtName, AvtPart, Grouping, LiteralAttr, Sort};
use xt_syntax::{Expr, Pattern, PatternStep};
use xt_types::{SeqType, Test, is_regular_type};

#[tactic(auto, unfolding(closed_queries::specs::Closed::is_good_expr))]
fn is_good_expr(e: &Expr) -> bool
    ensures { result ≡ is_good_expr e.now }
{
    is_regular(e) && has_sound_texts(e)
}

/// Whether the expression is a regular one of XPath, with texts and names that XML allows.
#[tactic(auto, unfolding(crate::specs::Values::is_sheet_expr))]
pub(crate) fn is_sheet_expr(e: &Expr) -> bool
    ensures { result ≡ is_sheet_expr e.now }
{
    is_good_expr(e) && has_xpath_forms(e)
}

#[tactic(auto, unfolding(crate::specs::Values::if_sheet_expr))]
pub(crate) fn if_sheet_expr(e: &Option<Shared<Expr>>) -> bool
    ensures { result ≡ if_sheet_expr e.now }
{
    match e {
        None => true,
        Some(e) => is_sheet_expr(e.get()),
    }
}

#[tactic(auto, unfolding(closed_queries::specs::Closed::is_good_kind))]
pub(crate) fn is_good_kind(kind: &Option<SeqType>) -> bool
    ensures { result ≡ is_good_kind kind.now }
{
    match kind {
        None => true,
        Some(kind) => is_regular_type(kind) && is_sound_type(kind),
    }
}

#[tactic(auto, unfolding(crate::specs::Values::is_good_part))]
fn is_good_part(part: &AvtPart) -> bool
    ensures { result ≡ is_good_part part.now }
{
    match part {
        AvtPart::Chars(text) => is_xml_text(text.as_str()),
        AvtPart::Code(e) => is_sheet_expr(e.get()),
    }
}

pub(crate) fn is_good_template(parts: &Avt) -> bool
    ensures { result ≡ is_good_template parts.now }
{
    parts.as_slice().iter().all(|part| is_good_part(part))
}

#[tactic(auto, unfolding(crate::specs::Values::if_good_template))]
pub(crate) fn if_good_template(parts: &Option<Shared<Avt>>) -> bool
    ensures { result ≡ if_good_template parts.now }
{
    match parts {
        None => true,
        Some(parts) => is_good_template(parts.get()),
    }
}

#[tactic(auto, unfolding(closed_queries::specs::Texts::is_free_uri))]
fn is_free_uri(uri: &Text) -> bool
    ensures { result ≡ is_free_uri uri.now }
{
    is_xml_text(uri.as_str())
        && !is_ascii_text(uri.as_str(), "http://www.w3.org/XML/1998/namespace")
        && !is_ascii_text(uri.as_str(), "http://www.w3.org/2000/xmlns/")
}

#[tactic(auto, unfolding(closed_queries::specs::Texts::is_free_prefix))]
fn is_free_prefix(prefix: &Text) -> bool
    ensures { result ≡ is_free_prefix prefix.now }
{
    is_xml_text(prefix.as_str())
        && !is_ascii_text(prefix.as_str(), "xml")
        && !is_ascii_text(prefix.as_str(), "xmlns")
}

#[tactic(auto, unfolding(closed_queries::specs::Texts::is_free_binding))]
fn is_free_binding(binding: &Binding) -> bool
    ensures { result ≡ is_free_binding binding.now }
{
    is_free_prefix(&binding.prefix) && is_free_uri(&binding.uri)
}

#[tactic(auto, unfolding(crate::specs::Values::is_xml_binding))]
fn is_xml_binding(binding: &Binding) -> bool
    ensures { result ≡ is_xml_binding binding.now }
{
    is_ascii_text(binding.prefix.as_str(), "xml")
        && is_ascii_text(binding.uri.as_str(), "http://www.w3.org/XML/1998/namespace")
}

#[tactic(auto, unfolding(crate::specs::Values::is_good_binding))]
fn is_good_binding(binding: &Binding) -> bool
    ensures { result ≡ is_good_binding binding.now }
{
    is_xml_binding(binding) || is_free_binding(binding)
}

fn are_good_bindings(all: &[Binding]) -> bool
    ensures { result ≡ list_all is_good_binding all.now }
{
    all.iter().all(|binding| is_good_binding(binding))
}

/// Whether the name that is computed has a good text, and namespaces and a default that may be
/// declared.
#[tactic(auto, unfolding(crate::specs::Values::is_good_name))]
pub(crate) fn is_good_name(name: &AvtName) -> bool
    ensures { result ≡ is_good_name name.now }
{
    is_good_template(name.text.get())
        && are_good_bindings(name.scope.get().as_slice())
        && is_free_uri(&name.default_uri)
}

#[tactic(auto, unfolding(closed_queries::specs::Texts::is_sound_attribute_name))]
fn is_sound_attribute_name(name: &Name) -> bool
    ensures { result ≡ is_sound_attribute_name name.now }
{
    is_sound_name(name) && !(name.uri.is_empty() && is_ascii_text(name.local.as_str(), "xmlns"))
}

#[tactic(auto, unfolding(crate::specs::Values::is_good_attribute))]
fn is_good_attribute(attr: &LiteralAttr) -> bool
    ensures { result ≡ is_good_attribute attr.now }
{
    is_sound_attribute_name(&attr.name) && is_good_template(attr.value.get())
}

pub(crate) fn are_good_attributes(all: &[LiteralAttr]) -> bool
    ensures { result ≡ list_all is_good_attribute all.now }
{
    all.iter().all(|attr| is_good_attribute(attr))
}

#[tactic(auto, unfolding(crate::specs::Values::is_good_sort))]
fn is_good_sort(sort: &Sort) -> bool
    ensures { result ≡ is_good_sort sort.now }
{
    is_sheet_expr(sort.key.get())
}

pub(crate) fn are_good_sorts(all: &[Sort]) -> bool
    ensures { result ≡ list_all is_good_sort all.now }
{
    all.iter().all(|sort| is_good_sort(sort))
}

#[tactic(auto, unfolding(closed_queries::specs::Texts::is_sound_target))]
fn is_sound_target(target: &Option<Text>) -> bool
    ensures { result ≡ is_sound_target target.now }
{
    match target {
        None => true,
        Some(target) => is_xml_text(target.as_str()),
    }
}

#[tactic(auto, unfolding(closed_queries::specs::Texts::is_sound_test))]
fn is_sound_test(test: &Test) -> bool
    ensures { result ≡ is_sound_test test.now }
{
    match test {
        Test::Named(name) | Test::Elem(name) | Test::Attr(name) => is_sound_name_test(name),
        Test::Pi(target) => is_sound_target(target),
        Test::Node | Test::Text | Test::Comment | Test::Doc => true,
    }
}

fn are_sheet_exprs(all: &[Expr]) -> bool
    ensures { result ≡ list_all is_sheet_expr all.now }
{
    all.iter().all(|e| is_sheet_expr(e))
}

#[tactic(auto, unfolding(crate::specs::Values::is_good_step))]
fn is_good_step(step: &PatternStep) -> bool
    ensures { result ≡ is_good_step step.now }
{
    is_sound_test(&step.test) && are_sheet_exprs(step.quiet.as_slice())
}

/// Whether the tests of the alternative have texts and names that XML allows, and its predicates are
/// regular expressions of XPath with such texts and names (XSLT 2.0, 5.5.2).
#[tactic(auto, unfolding(crate::specs::Values::is_good_pattern))]
pub fn is_good_pattern(pattern: &Pattern) -> bool
    ensures { result ≡ is_good_pattern pattern.now }
{
    pattern
        .steps
        .as_slice()
        .iter()
        .all(|step| is_good_step(step))
}

fn are_good_patterns(all: &[Pattern]) -> bool
    ensures { result ≡ list_all is_good_pattern all.now }
{
    all.iter().all(|pattern| is_good_pattern(pattern))
}

#[tactic(auto, unfolding(crate::specs::Values::is_good_grouping))]
pub(crate) fn is_good_grouping(grouping: &Grouping) -> bool
    ensures { result ≡ is_good_grouping grouping.now }
{
    match grouping {
        Grouping::By(e) => is_sheet_expr(e.get()),
        Grouping::Adjacent(e) => is_sheet_expr(e.get()),
        Grouping::Starting(patterns) => are_good_patterns(patterns.get().as_slice()),
    }
}
