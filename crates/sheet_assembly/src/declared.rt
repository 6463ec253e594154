// Globals, functions and keys.
ghost use Rattle.std.specs.Prelude.{◌≡◌, ◌∷◌, ◌++◌, [], map, slice_get, IfOk, OnOk};
ghost use Rattle.sheet_assembly.specs.Named.{is_marked, behind, each_by, each};
ghost use Rattle.sheet_assembly.specs.Named.{global, global_in, global_if, at, ordered};
ghost use Rattle.sheet_assembly.specs.Named.{sheet_function, function_in, function_if};
ghost use Rattle.sheet_assembly.specs.Named.{key_rule, key_rules, keys_in};

use sheet_modules::{FunctionPart, GlobalPart, KeyPart, Part};
use sheet_rules::sheet_declarations::Declaration;
use std::alloc::{AllocError, Global as Allocator};
use xt_names::List;
use xt_sheets::{Global, KeyRule, SheetFunction, copy_bound_list, copy_instr_list};
use xt_syntax::{Expr, Pattern};
use xt_types::copy_option;

/// The first mark.
pub(crate) fn is_marked(marks: &[bool]) -> bool
    ensures { result ≡ is_marked marks.now }
{
    match marks {
        [] => false,
        [first, ..] => *first,
    }
}

/// The marks after the first.
pub(crate) fn behind(marks: &[bool]) -> &[bool]
    ensures { result.now ≡ behind marks.now }
{
    match marks {
        [] => marks,
        [_, rest @ ..] => rest,
    }
}

/// The global variables and parameters that count, in declaration order (XSLT 2.0, 9.5).
pub(crate) fn globals(
    alloc: Allocator,
    declarations: &[Declaration<Expr, Pattern>],
    marks: &[bool],
) -> Result<List<Global>, AllocError>
    ensures { IfOk result (λ all. all ≡ each_by global_if marks.now declarations.now) }
{
    let mut made = List::new(alloc);
    let mut marks = marks;
    let mut left = declarations;
    while let [declaration, rest @ ..] = left {
        push_global(&mut made, is_marked(marks), declaration.part.get())?;
        marks = behind(marks);
        left = rest;
    }
    Ok(made)
}

fn push_global(
    made: &mut List<Global>,
    counts: bool,
    part: &Part<Expr, Pattern>,
) -> Result<(), AllocError>
    ensures { OnOk result (made.new ≡ made.old ++ global_in counts part.now) }
{
    if !counts {
        return Ok(());
    }
    match part {
        Part::Global(part) => push_counted(made, part),
        _ => Ok(()),
    }
}

fn push_counted(made: &mut List<Global>, part: &GlobalPart<Expr, Pattern>) -> Result<(), AllocError>
    ensures { OnOk result (made.new ≡ made.old ++ global part.now ∷ []) }
{
    made.push(Global {
        bound: part.bound.copy()?,
        param: part.param,
    })
}

/// The globals at these places, in this order; a place that none has gives none.
pub fn ordered(
    alloc: Allocator,
    globals: &[Global],
    order: &[usize],
) -> Result<List<Global>, AllocError>
    ensures { IfOk result (λ all. all ≡ ordered globals.now order.now) }
{
    let mut made = List::new(alloc);
    let mut left = order;
    while let [place, rest @ ..] = left {
        push_at(&mut made, globals, *place)?;
        left = rest;
    }
    Ok(made)
}

fn push_at(made: &mut List<Global>, globals: &[Global], place: usize) -> Result<(), AllocError>
    ensures { OnOk result (made.new ≡ made.old ++ at (slice_get globals.now place)) }
{
    match globals.get(place) {
        Some(global) => made.push(global.copy()?),
        None => Ok(()),
    }
}

/// The functions that count, in declaration order (XSLT 2.0, 10.3).
pub(crate) fn functions(
    alloc: Allocator,
    declarations: &[Declaration<Expr, Pattern>],
    marks: &[bool],
) -> Result<List<SheetFunction>, AllocError>
    ensures { IfOk result (λ all. all ≡ each_by function_if marks.now declarations.now) }
{
    let mut made = List::new(alloc);
    let mut marks = marks;
    let mut left = declarations;
    while let [declaration, rest @ ..] = left {
        push_function(&mut made, is_marked(marks), declaration.part.get())?;
        marks = behind(marks);
        left = rest;
    }
    Ok(made)
}

fn push_function(
    made: &mut List<SheetFunction>,
    counts: bool,
    part: &Part<Expr, Pattern>,
) -> Result<(), AllocError>
    ensures { OnOk result (made.new ≡ made.old ++ function_in counts part.now) }
{
    if !counts {
        return Ok(());
    }
    match part {
        Part::Function(part) => made.push(function_of(part)?),
        _ => Ok(()),
    }
}

fn function_of(part: &FunctionPart<Expr, Pattern>) -> Result<SheetFunction, AllocError>
    ensures { IfOk result (λ made. made ≡ sheet_function part.now) }
{
    Ok(SheetFunction {
        name: part.name.copy()?,
        params: copy_bound_list(&part.params)?,
        kind: copy_option(&part.kind)?,
        body: copy_instr_list(&part.body)?,
    })
}

/// All declarations of keys, in order (XSLT 2.0, 16.3.1).
pub(crate) fn keys(
    alloc: Allocator,
    declarations: &[Declaration<Expr, Pattern>],
) -> Result<List<KeyRule>, AllocError>
    ensures { IfOk result (λ all. all ≡ each keys_in declarations.now) }
{
    let mut made = List::new(alloc);
    let mut left = declarations;
    while let [declaration, rest @ ..] = left {
        push_keys_in(&mut made, declaration.part.get())?;
        left = rest;
    }
    Ok(made)
}

fn push_keys_in(made: &mut List<KeyRule>, part: &Part<Expr, Pattern>) -> Result<(), AllocError>
    ensures { OnOk result (made.new ≡ made.old ++ key_rules part.now) }
{
    match part {
        Part::Key(keys) => push_keys(made, keys.as_slice()),
        _ => Ok(()),
    }
}

fn push_keys(made: &mut List<KeyRule>, keys: &[KeyPart<Expr, Pattern>]) -> Result<(), AllocError>
    ensures { OnOk result (made.new ≡ made.old ++ map key_rule keys.now) }
{
    for key in keys {
        made.push(key_of(key)?)?;
    }
    Ok(())
}

fn key_of(part: &KeyPart<Expr, Pattern>) -> Result<KeyRule, AllocError>
    ensures { IfOk result (λ rule. rule ≡ key_rule part.now) }
{
    Ok(KeyRule {
        name: part.name.copy()?,
        pattern: part.pattern.copy()?,
        key: part.key.get().copy()?,
    })
}
