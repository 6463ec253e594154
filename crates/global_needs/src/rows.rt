// Where the places of the graph lead.
ghost use Rattle.std.specs.Prelude.{◌≡◌, ◌++◌, IfOk, OnOk, map};
ghost use Rattle.global_needs.specs.Rows.{bounded, found_at, mode_leads, use_leads, leads};
ghost use Rattle.global_needs.specs.Rows.{bound_leads, callee_leads, global_row, function_row};
ghost use Rattle.global_needs.specs.Rows.{template_row, no_row};
ghost use Rattle.global_needs.specs.Rows.{with_place, with_mode, with_modes, with_rules};

use crate::shapes::{Shape, sum};
use name_rules::VariableScope;
use sheet_uses::{Use, push_bound_uses, push_callee_uses};
use std::alloc::{AllocError, Global};
use xt_names::{ExprName, List};
use xt_sheets::{Bound, Global as SheetGlobal, Instr, ModeUse, Rule, SheetFunction, Template};

/// Adds the place of a kind, if it is one of so many.
fn push_bounded(
    row: &mut List<usize>,
    count: usize,
    at: usize,
    place: usize,
) -> Result<(), AllocError>
    ensures { OnOk result (row.new ≡ row.old ++ bounded count at place) }
{
    if place < count {
        row.push(sum(at, place)?)
    } else {
        Ok(())
    }
}

fn push_found(
    row: &mut List<usize>,
    count: usize,
    at: usize,
    place: Option<usize>,
) -> Result<(), AllocError>
    ensures { OnOk result (row.new ≡ row.old ++ found_at count at place) }
{
    match place {
        None => Ok(()),
        Some(place) => push_bounded(row, count, at, place),
    }
}

#[tactic(auto, unfolding(crate::specs::Rows::mode_leads))]
fn push_mode(
    row: &mut List<usize>,
    shape: &Shape,
    in_rule: bool,
    mode: ModeUse,
) -> Result<(), AllocError>
    ensures { OnOk result (row.new ≡ row.old ++ mode_leads shape.now in_rule mode) }
{
    match mode {
        ModeUse::Number(mode) => push_bounded(row, shape.modes, shape.modes_at, mode as usize),
        ModeUse::Current => {
            if in_rule {
                Ok(())
            } else {
                push_bounded(row, shape.modes, shape.modes_at, 0)
            }
        }
    }
}

#[tactic(auto, unfolding(crate::specs::Rows::use_leads))]
fn push_use(
    row: &mut List<usize>,
    shape: &Shape,
    in_rule: bool,
    one: &Use,
) -> Result<(), AllocError>
    ensures { OnOk result (row.new ≡ row.old ++ use_leads shape.now in_rule one.now) }
{
    match one {
        Use::Variable(name) => {
            let place = shape.variables.place(name, 0)?;
            push_found(row, shape.globals, shape.globals_at, place)
        }
        Use::Call(name, arity, _) => {
            let place = shape.called.place(name, *arity)?;
            push_found(row, shape.functions, shape.functions_at, place)
        }
        Use::Template(number, _) => {
            let at = if in_rule {
                shape.rules_at
            } else {
                shape.templates_at
            };
            push_bounded(row, shape.templates, at, *number as usize)
        }
        Use::Apply(mode) => push_mode(row, shape, in_rule, *mode),
    }
}

fn row_of(
    alloc: Global,
    shape: &Shape,
    in_rule: bool,
    uses: &[Use],
) -> Result<List<usize>, AllocError>
    ensures { IfOk result (λ row. row ≡ leads shape.now in_rule uses.now) }
{
    let mut row = List::new(alloc);
    for one in uses {
        push_use(&mut row, shape, in_rule, one)?;
    }
    Ok(row)
}

fn bound_row(alloc: Global, shape: &Shape, bound: &Bound) -> Result<List<usize>, AllocError>
    ensures { IfOk result (λ row. row ≡ bound_leads shape.now bound.now) }
{
    let scope = VariableScope::new(alloc)?;
    let mut uses = List::new(alloc);
    push_bound_uses(bound, &scope, &mut uses)?;
    row_of(alloc, shape, false, uses.as_slice())
}

fn callee_row(
    alloc: Global,
    shape: &Shape,
    in_rule: bool,
    params: &[Bound],
    body: &[Instr],
) -> Result<List<usize>, AllocError>
    ensures { IfOk result (λ row. row ≡ callee_leads shape.now in_rule params.now body.now) }
{
    let scope = VariableScope::new(alloc)?;
    let mut uses = List::new(alloc);
    push_callee_uses(params, body, &scope, &mut uses)?;
    row_of(alloc, shape, in_rule, uses.as_slice())
}

pub(crate) fn push_globals(
    alloc: Global,
    graph: &mut Vec<List<usize>>,
    shape: &Shape,
    globals: &[SheetGlobal],
) -> Result<(), AllocError>
    ensures { OnOk result (graph.new.items ≡ graph.old.items ++ map (global_row shape.now) globals.now) }
{
    for global in globals {
        graph.push(bound_row(alloc, shape, &global.bound)?)?;
    }
    Ok(())
}

pub(crate) fn push_functions(
    alloc: Global,
    graph: &mut Vec<List<usize>>,
    shape: &Shape,
    functions: &[SheetFunction],
) -> Result<(), AllocError>
    ensures { OnOk result (graph.new.items ≡ graph.old.items ++ map (function_row shape.now) functions.now) }
{
    for function in functions {
        let params = function.params.as_slice();
        graph.push(callee_row(alloc, shape, false, params, function.body.as_slice())?)?;
    }
    Ok(())
}

pub(crate) fn push_templates(
    alloc: Global,
    graph: &mut Vec<List<usize>>,
    shape: &Shape,
    in_rule: bool,
    templates: &[Template],
) -> Result<(), AllocError>
    ensures { OnOk result
        (graph.new.items ≡ graph.old.items ++ map (template_row shape.now in_rule) templates.now) }
{
    for template in templates {
        let params = template.params.as_slice();
        graph.push(callee_row(alloc, shape, in_rule, params, template.body.as_slice())?)?;
    }
    Ok(())
}

/// Adds so many places that lead nowhere.
pub(crate) fn push_ends<A>(
    alloc: Global,
    graph: &mut Vec<List<usize>>,
    of: &[A],
) -> Result<(), AllocError>
    ensures { OnOk result (graph.new.items ≡ graph.old.items ++ map no_row of.now) }
{
    for one in of {
        graph.push(List::new(alloc))?;
    }
    Ok(())
}

fn push_at(graph: &mut Vec<List<usize>>, at: usize, place: usize) -> Result<(), AllocError>
    ensures { OnOk result (graph.new.items ≡ with_place at place graph.old.items) }
{
    if at < graph.len() {
        graph[at].push(place)
    } else {
        Ok(())
    }
}

fn push_in_mode(
    graph: &mut Vec<List<usize>>,
    shape: &Shape,
    place: usize,
    mode: usize,
) -> Result<(), AllocError>
    ensures { OnOk result (graph.new.items ≡ with_mode shape.now place graph.old.items mode) }
{
    if mode < shape.modes {
        push_at(graph, sum(shape.modes_at, mode)?, place)
    } else {
        Ok(())
    }
}

fn push_rule(
    graph: &mut Vec<List<usize>>,
    shape: &Shape,
    place: usize,
    modes: &[u32],
) -> Result<(), AllocError>
    ensures { OnOk result (graph.new.items ≡ with_modes shape.now place graph.old.items modes.now) }
{
    for mode in modes {
        push_in_mode(graph, shape, place, *mode as usize)?;
    }
    Ok(())
}

/// Each mode leads to the templates of the rules that stand in it.
pub(crate) fn push_rules(
    graph: &mut Vec<List<usize>>,
    shape: &Shape,
    rules: &[Rule],
) -> Result<(), AllocError>
    ensures { OnOk result (graph.new.items ≡ with_rules shape.now graph.old.items rules.now) }
{
    for rule in rules {
        let place = sum(shape.rules_at, rule.template as usize)?;
        push_rule(graph, shape, place, rule.modes.as_slice())?;
    }
    Ok(())
}
