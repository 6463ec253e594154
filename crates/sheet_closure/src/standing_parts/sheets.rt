// The declarations of a stylesheet.
ghost use Rattle.std.specs.Prelude.{◌≡◌, nat_le, IfOk};
ghost use Rattle.std.specs.List.{list_all};
ghost use Rattle.closed_sheets.specs.SheetForms.SheetNest.{sheet_nest_of};
ghost use Rattle.sheet_closure.specs.StandingParts.Patterns.{is_alternative};
ghost use Rattle.sheet_closure.specs.StandingParts.Sheets.{global_stands, callee_stands, template_stands};
ghost use Rattle.sheet_closure.specs.StandingParts.Sheets.{function_stands, key_stands, parts_stand};

use crate::standing_parts::bodies::{body_stands, bound_stands, is_required, params_stand};
use crate::standing_parts::calls::expr_stands;
use crate::standing_parts::patterns::is_alternative;
use closed_sheets::sheet_forms::nest_sheet;
use sheet_expressions::is_key_use;
use std::alloc::{AllocError, Global as Allocator};
use xt_sheets::{Bound, Global, Instr, KeyRule, Rule, Sheet, SheetFunction, Template};

/// Whether its instructions nest at most 40 levels.
#[tactic(auto, using(crate::proofs::StandingParts::Levels::levels))]
fn is_shallow(sheet: &Sheet) -> bool
    ensures { result ≡ nat_le (sheet_nest_of sheet.now) 40 }
{
    nest_sheet(sheet) <= 40
}

/// Whether the parts of the stylesheet may stand where they do, as a closed stylesheet has them
/// (XSLT 2.0, 5 to 16). Its instructions, its expressions and its patterns nest at most 40 levels.
/// Each of its patterns is an alternative, as a text spells it. It calls current-group() and
/// current-grouping-key() within `xsl:for-each-group` alone, and key() with a literal first. `use`
/// of a key names no variable and calls no key(). No instruction has both `select` and content.
/// Parameters alone are required. No two parameters of one template or function, and no two that
/// one instruction passes, have one name.
#[tactic(auto, unfolding(crate::specs::StandingParts::Sheets::parts_stand))]
pub fn parts_stand(sheet: &Sheet) -> Result<bool, AllocError>
    ensures { IfOk result (λ stand. stand ≡ parts_stand sheet.now) }
{
    let alloc = sheet.globals.allocator();
    Ok(
        is_shallow(sheet)
            && globals_stand(alloc, sheet.globals.as_slice())?
            && templates_stand(alloc, sheet.templates.as_slice())?
            && rules_stand(sheet.rules.as_slice())
            && functions_stand(alloc, sheet.functions.as_slice())?
            && keys_stand(alloc, sheet.keys.as_slice())?,
    )
}

#[tactic(auto, unfolding(crate::specs::StandingParts::Sheets::global_stands))]
fn global_stands(alloc: Allocator, global: &Global) -> Result<bool, AllocError>
    ensures { IfOk result (λ stands. stands ≡ global_stands global.now) }
{
    Ok((global.param || !is_required(&global.bound)) && bound_stands(alloc, false, &global.bound)?)
}

fn globals_stand(alloc: Allocator, all: &[Global]) -> Result<bool, AllocError>
    ensures { IfOk result (λ stand. stand ≡ list_all global_stands all.now) }
{
    for global in all {
        if !global_stands(alloc, global)? {
            return Ok(false);
        }
    }
    Ok(true)
}

fn callee_stands(alloc: Allocator, params: &[Bound], body: &[Instr]) -> Result<bool, AllocError>
    ensures { IfOk result (λ stands. stands ≡ callee_stands params.now body.now) }
{
    Ok(params_stand(alloc, false, params)? && body_stands(alloc, false, body)?)
}

#[tactic(auto, unfolding(crate::specs::StandingParts::Sheets::template_stands))]
fn template_stands(alloc: Allocator, template: &Template) -> Result<bool, AllocError>
    ensures { IfOk result (λ stands. stands ≡ template_stands template.now) }
{
    callee_stands(alloc, template.params.as_slice(), template.body.as_slice())
}

fn templates_stand(alloc: Allocator, all: &[Template]) -> Result<bool, AllocError>
    ensures { IfOk result (λ stand. stand ≡ list_all template_stands all.now) }
{
    for template in all {
        if !template_stands(alloc, template)? {
            return Ok(false);
        }
    }
    Ok(true)
}

fn rules_stand(all: &[Rule]) -> bool
    ensures { result ≡ list_all (λ r. is_alternative r.pattern) all.now }
{
    for rule in all {
        if !is_alternative(&rule.pattern) {
            return false;
        }
    }
    true
}

#[tactic(auto, unfolding(crate::specs::StandingParts::Sheets::function_stands))]
fn function_stands(alloc: Allocator, function: &SheetFunction) -> Result<bool, AllocError>
    ensures { IfOk result (λ stands. stands ≡ function_stands function.now) }
{
    callee_stands(alloc, function.params.as_slice(), function.body.as_slice())
}

fn functions_stand(alloc: Allocator, all: &[SheetFunction]) -> Result<bool, AllocError>
    ensures { IfOk result (λ stand. stand ≡ list_all function_stands all.now) }
{
    for function in all {
        if !function_stands(alloc, function)? {
            return Ok(false);
        }
    }
    Ok(true)
}

#[tactic(auto, unfolding(crate::specs::StandingParts::Sheets::key_stands))]
fn key_stands(alloc: Allocator, key: &KeyRule) -> Result<bool, AllocError>
    ensures { IfOk result (λ stands. stands ≡ key_stands key.now) }
{
    Ok(is_alternative(&key.pattern) && expr_stands(alloc, false, &key.key)? && is_key_use(&key.key))
}

fn keys_stand(alloc: Allocator, all: &[KeyRule]) -> Result<bool, AllocError>
    ensures { IfOk result (λ stand. stand ≡ list_all key_stands all.now) }
{
    for key in all {
        if !key_stands(alloc, key)? {
            return Ok(false);
        }
    }
    Ok(true)
}
