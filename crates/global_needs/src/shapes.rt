// The places of a graph: globals, functions, templates as they are called, templates as they are
// rules, modes, and globals as they are named.
ghost use Rattle.std.specs.Prelude.{◌≡◌, ◌+◌, IfOk, OnOk, map, length};
ghost use Rattle.global_needs.specs.Shapes.{shape_of, variables_of, called_of, with_all};

use crate::tables::Table;
use std::alloc::{AllocError, Global};
use xt_sheets::{Global as SheetGlobal, Sheet, SheetFunction};

/// How many places of each kind there are, and where they begin.
#[derive(Drop)]
pub(crate) struct Shape {
    pub(crate) variables: Table,
    pub(crate) called: Table,
    pub(crate) globals: usize,
    pub(crate) functions: usize,
    pub(crate) templates: usize,
    pub(crate) modes: usize,
    pub(crate) functions_at: usize,
    pub(crate) templates_at: usize,
    pub(crate) rules_at: usize,
    pub(crate) modes_at: usize,
    pub(crate) globals_at: usize,
}

/// The sum; so many places no memory holds.
pub(crate) fn sum(a: usize, b: usize) -> Result<usize, AllocError>
    ensures { IfOk result (λ n. n ≡ a + b) }
{
    match a.checked_add(b) {
        Some(n) => Ok(n),
        None => Err(AllocError),
    }
}

fn variables(alloc: Global, globals: &[SheetGlobal]) -> Result<Table, AllocError>
    ensures { IfOk result (λ table. table ≡ variables_of globals.now) }
{
    let mut table = Table::new(alloc);
    for global in globals {
        table.add(&global.bound.name, 0)?;
    }
    Ok(table)
}

fn called(alloc: Global, functions: &[SheetFunction]) -> Result<Table, AllocError>
    ensures { IfOk result (λ table. table ≡ called_of functions.now) }
{
    let mut table = Table::new(alloc);
    for function in functions {
        table.add(&function.name, function.params.len())?;
    }
    Ok(table)
}

pub(crate) fn measured(alloc: Global, sheet: &Sheet) -> Result<Shape, AllocError>
    ensures { IfOk result (λ shape. shape ≡ shape_of sheet.now) }
{
    let globals = sheet.globals.len();
    let functions = sheet.functions.len();
    let templates = sheet.templates.len();
    let modes = sheet.modes.len();
    let templates_at = sum(globals, functions)?;
    let rules_at = sum(templates_at, templates)?;
    let modes_at = sum(rules_at, templates)?;
    let globals_at = sum(modes_at, modes)?;
    let variables = variables(alloc, sheet.globals.as_slice())?;
    let called = called(alloc, sheet.functions.as_slice())?;
    Ok(Shape {
        variables,
        called,
        globals,
        functions,
        templates,
        modes,
        functions_at: globals,
        templates_at,
        rules_at,
        modes_at,
        globals_at,
    })
}
