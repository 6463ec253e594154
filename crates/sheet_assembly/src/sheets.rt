// The whole stylesheet.
ghost use Rattle.std.specs.Prelude.{◌≡◌, ◌<◌, ◌^◌, map, length, IfOk};
ghost use Rattle.sheet_assembly.specs.Named.{each_by, global_if, ordered};
ghost use Rattle.sheet_assembly.specs.Sheets.{sheet_of, level_of};

use crate::declared::{functions, globals, keys, ordered};
use crate::spaces::{omit, spaces};
use crate::templates::{rules, standing_templates, templates};
use sheet_modules::sheet_levels::SheetLevel;
use sheet_rules::sheet_declarations::{Declaration, counted};
use sheet_values::sheet_texts::NameTable;
use std::alloc::{AllocError, Global as Allocator};
use xt_names::{ExprName, List};
use xt_sheets::{Global, Level, Sheet};
use xt_syntax::{Expr, Pattern};

/// The stylesheet of these declarations, which stand in order of precedence (XSLT 2.0, 3.10.3).
/// `modes` and `called` are the modes, and the templates that are called, whose numbers stand in the
/// declarations; `order` has the places of the globals that count in the order in which they are
/// evaluated.
pub fn assemble(
    alloc: Allocator,
    declarations: &[Declaration<Expr, Pattern>],
    modes: &NameTable,
    called: &NameTable,
    levels: &[SheetLevel],
    order: &[usize],
) -> Result<Sheet, AllocError>
    requires modes { length modes.now < 2 ^ 32 }
    requires called { length called.now < 2 ^ 32 }
    requires levels { length levels.now < 2 ^ 32 }
    ensures { IfOk result (λ sheet. sheet ≡ sheet_of (record {
      declarations = declarations.now;
      modes = modes.now;
      called = called.now;
      levels = levels.now;
      order = order.now;
    })) }
{
    let marks = counted(alloc, declarations)?;
    let standing = standing_templates(alloc, called, declarations, &marks)?;
    let count = called.as_slice().len();
    let mode_count = modes.as_slice().len();
    Ok(Sheet {
        levels: sheet_levels(alloc, levels)?,
        globals: in_order(alloc, declarations, &marks, order)?,
        templates: templates(alloc, count, standing.as_slice())?,
        rules: rules(alloc, mode_count as u32, count as u32, standing.as_slice())?,
        functions: functions(alloc, declarations, &marks)?,
        keys: keys(alloc, declarations)?,
        modes: names(alloc, modes.as_slice())?,
        space: spaces(alloc, levels.len() as u32, declarations)?,
        omit: omit(declarations),
    })
}

/// The globals that count, in the order in which they are evaluated.
fn in_order(
    alloc: Allocator,
    declarations: &[Declaration<Expr, Pattern>],
    marks: &[bool],
    order: &[usize],
) -> Result<List<Global>, AllocError>
    ensures { IfOk result (λ all. all
        ≡ ordered (each_by global_if marks.now declarations.now) order.now) }
{
    let all = globals(alloc, declarations, marks)?;
    let found = ordered(alloc, all.as_slice(), order);
    drop(all);
    found
}

fn sheet_levels(alloc: Allocator, levels: &[SheetLevel]) -> Result<List<Level>, AllocError>
    ensures { IfOk result (λ all. all ≡ map level_of levels.now) }
{
    let mut made = List::new(alloc);
    for level in levels {
        let first = u32::try_from(level.first).unwrap_or(u32::MAX);
        made.push(Level { first })?;
    }
    Ok(made)
}

fn names(alloc: Allocator, names: &[ExprName]) -> Result<List<ExprName>, AllocError>
    ensures { IfOk result (λ copy. copy ≡ names.now) }
{
    let mut copy = List::new(alloc);
    for name in names {
        copy.push(name.copy()?)?;
    }
    Ok(copy)
}
