// The parts of a stylesheet, each for itself.
ghost use Rattle.std.specs.Prelude.{◌≡◌, map};
ghost use Rattle.std.specs.List.{list_all};
ghost use Rattle.xt_forms.specs.Regular.{every};
ghost use Rattle.closed_queries.specs.Texts.{is_sound_expr_name, is_sound_name_test};
ghost use Rattle.closed_sheets.specs.Values.{is_good_pattern};
ghost use Rattle.closed_sheets.specs.Instrs.{is_good_bound};
ghost use Rattle.closed_sheets.specs.Sheets.{if_sound_name, is_good_sheet_template, is_good_function};
ghost use Rattle.closed_sheets.specs.Sheets.{is_good_key, are_sound_modes, has_good_parts};

use crate::instrs::{are_good_bounds, is_good_body, is_good_bound};
use crate::values::{is_good_kind, is_good_pattern, is_sheet_expr};
use closed_queries::{is_sound_expr_name, is_sound_name_test};
use xt_names::ExprName;
use xt_sheets::{Global, KeyRule, Rule, Sheet, SheetFunction, SpaceRule, Template};

/// Whether all expressions of the stylesheet are regular ones of XPath, its types are regular, and XML
/// allows its texts and names, as a closed stylesheet has them (XSLT 2.0, 3.6 and 5). The default mode
/// has no name, and the namespaces of a computed name are those that may be declared, and xml. Which
/// variables, functions, templates, keys and modes are declared is not asked.
#[tactic(auto, unfolding(crate::specs::Sheets::has_good_parts))]
pub fn has_good_parts(sheet: &Sheet) -> bool
    ensures { result ≡ has_good_parts sheet.now }
{
    are_good_globals(sheet.globals.as_slice())
        && are_good_templates(sheet.templates.as_slice())
        && are_good_rules(sheet.rules.as_slice())
        && are_good_functions(sheet.functions.as_slice())
        && are_good_keys(sheet.keys.as_slice())
        && are_sound_modes(sheet.modes.as_slice())
        && are_sound_rules(sheet.space.as_slice())
}

fn are_good_globals(all: &[Global]) -> bool
    ensures { result ≡ every (map (λ g. is_good_bound g.bound) all.now) }
{
    for global in all {
        if !is_good_bound(&global.bound) {
            return false;
        }
    }
    true
}

#[tactic(auto, unfolding(crate::specs::Sheets::if_sound_name))]
fn if_sound_name(name: &Option<ExprName>) -> bool
    ensures { result ≡ if_sound_name name.now }
{
    match name {
        None => true,
        Some(name) => is_sound_expr_name(name),
    }
}

#[tactic(auto, unfolding(crate::specs::Sheets::is_good_sheet_template))]
fn is_good_template(template: &Template) -> bool
    ensures { result ≡ is_good_sheet_template template.now }
{
    if_sound_name(&template.name)
        && are_good_bounds(template.params.as_slice())
        && is_good_kind(&template.kind)
        && is_good_body(template.body.as_slice())
}

fn are_good_templates(all: &[Template]) -> bool
    ensures { result ≡ list_all is_good_sheet_template all.now }
{
    all.iter().all(|template| is_good_template(template))
}

fn are_good_rules(all: &[Rule]) -> bool
    ensures { result ≡ list_all (λ r. is_good_pattern r.pattern) all.now }
{
    for rule in all {
        if !is_good_pattern(&rule.pattern) {
            return false;
        }
    }
    true
}

#[tactic(auto, unfolding(crate::specs::Sheets::is_good_function))]
fn is_good_function(function: &SheetFunction) -> bool
    ensures { result ≡ is_good_function function.now }
{
    is_sound_expr_name(&function.name)
        && are_good_bounds(function.params.as_slice())
        && is_good_kind(&function.kind)
        && is_good_body(function.body.as_slice())
}

fn are_good_functions(all: &[SheetFunction]) -> bool
    ensures { result ≡ list_all is_good_function all.now }
{
    all.iter().all(|function| is_good_function(function))
}

#[tactic(auto, unfolding(crate::specs::Sheets::is_good_key))]
fn is_good_key(key: &KeyRule) -> bool
    ensures { result ≡ is_good_key key.now }
{
    is_sound_expr_name(&key.name) && is_good_pattern(&key.pattern) && is_sheet_expr(&key.key)
}

fn are_good_keys(all: &[KeyRule]) -> bool
    ensures { result ≡ list_all is_good_key all.now }
{
    all.iter().all(|key| is_good_key(key))
}

fn are_sound_names(all: &[ExprName]) -> bool
    ensures { result ≡ list_all is_sound_expr_name all.now }
{
    all.iter().all(|name| is_sound_expr_name(name))
}

#[tactic(auto, unfolding(crate::specs::Sheets::are_sound_modes))]
fn are_sound_modes(modes: &[ExprName]) -> bool
    ensures { result ≡ are_sound_modes modes.now }
{
    match modes {
        [] => true,
        [_, named @ ..] => are_sound_names(named),
    }
}

fn are_sound_rules(all: &[SpaceRule]) -> bool
    ensures { result ≡ list_all (λ r. is_sound_name_test r.test) all.now }
{
    for rule in all {
        if !is_sound_name_test(&rule.test) {
            return false;
        }
    }
    true
}
