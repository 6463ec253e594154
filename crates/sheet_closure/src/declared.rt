// What a stylesheet declares, and whether it uses nothing else.
ghost use Rattle.std.specs.Prelude.{◌≡◌, [], IfOk, map, slice_get};
ghost use Rattle.std.specs.List.{list_all};
ghost use Rattle.name_rules.specs.Scopes.{with_names};
ghost use Rattle.sheet_closure.specs.Declared.{global_name, with_functions, are_new_functions, has_different_names, has_uri, key_name, names_of, is_named, is_mode, is_declared, all_declared, keys_call_none, keeps_names};

use crate::uses::{key_uses_of, uses_of};
use name_rules::{Functions, VariableScope, names_differ};
use sheet_expressions::sheet_names::{Names, broken_use, with_key};
use sheet_uses::Use;
use sheet_uses::key_calls::push_called;
use std::alloc::{AllocError, Global as Allocator};
use xt_names::{ExprName, List};
use xt_sheets::{Global, KeyRule, ModeUse, Sheet, SheetFunction, Template};

fn global_names(globals: &List<Global>) -> Result<List<ExprName>, AllocError>
    ensures { IfOk result (λ names. names ≡ map global_name globals.now) }
{
    let mut names = List::new(globals.allocator());
    for global in globals.as_slice() {
        names.push(global.bound.name.copy()?)?;
    }
    Ok(names)
}

fn are_new_functions(alloc: Allocator, functions: &[SheetFunction]) -> Result<bool, AllocError>
    ensures { IfOk result (λ new. new ≡ are_new_functions [] functions.now) }
{
    let mut declared = Functions::new(alloc);
    for function in functions {
        if !declared.declare(&function.name, function.params.len())? {
            return Ok(false);
        }
    }
    Ok(true)
}

/// Whether no two of its globals have one name, and no two of its functions one name and number of
/// parameters.
#[tactic(auto, unfolding(crate::specs::Declared::has_different_names))]
pub(crate) fn has_different_names(sheet: &Sheet) -> Result<bool, AllocError>
    ensures { IfOk result (λ differ. differ ≡ has_different_names sheet.now) }
{
    let names = global_names(&sheet.globals)?;
    Ok(names_differ(&names)? && are_new_functions(names.allocator(), sheet.functions.as_slice())?)
}

/// Whether the name of the function has a uri.
#[tactic(auto, unfolding(crate::specs::Declared::has_uri))]
pub(crate) fn has_uri(function: &SheetFunction) -> bool
    ensures { result ≡ has_uri function.now }
{
    !function.name.uri.is_empty()
}

fn declared_functions(
    alloc: Allocator,
    functions: &[SheetFunction],
) -> Result<Functions, AllocError>
    ensures { IfOk result (λ declared. declared ≡ with_functions [] functions.now) }
{
    let mut declared = Functions::new(alloc);
    for function in functions {
        let _new = declared.declare(&function.name, function.params.len())?;
    }
    Ok(declared)
}

fn declared_keys(alloc: Allocator, keys: &[KeyRule]) -> Result<VariableScope, AllocError>
    ensures { IfOk result (λ scope. scope ≡ with_names [] (map key_name keys.now)) }
{
    let mut scope = VariableScope::new(alloc)?;
    for key in keys {
        scope = with_key(alloc, scope, &key.name)?;
    }
    Ok(scope)
}

/// The variables, functions and keys that it declares. Its templates are looked for by their
/// places.
fn names_of(alloc: Allocator, sheet: &Sheet) -> Result<Names, AllocError>
    ensures { IfOk result (λ names. names ≡ names_of sheet.now) }
{
    let globals = global_names(&sheet.globals)?;
    Ok(Names {
        variables: VariableScope::new(alloc)?.with_all(&globals)?,
        functions: declared_functions(alloc, sheet.functions.as_slice())?,
        keys: declared_keys(alloc, sheet.keys.as_slice())?,
        templates: 0,
    })
}

#[tactic(auto, using(std::proofs::lemmas::Option::slice_get_past), unfolding(crate::specs::Declared::is_named))]
fn is_named(templates: &[Template], place: u32) -> bool
    ensures { result ≡ is_named (slice_get templates.now place) }
{
    match templates.get(place as usize) {
        None => false,
        Some(template) => template.name.is_some(),
    }
}

#[tactic(auto, unfolding(crate::specs::Declared::is_mode))]
fn is_mode(modes: &List<ExprName>, mode: ModeUse) -> bool
    ensures { result ≡ is_mode modes.now mode }
{
    match mode {
        ModeUse::Number(mode) => (mode as usize) < modes.len(),
        ModeUse::Current => true,
    }
}

#[tactic(auto, unfolding(crate::specs::Declared::is_declared))]
fn is_declared(
    alloc: Allocator,
    names: &Names,
    sheet: &Sheet,
    one: &Use,
) -> Result<bool, AllocError>
    ensures { IfOk result (λ declared. declared ≡ is_declared names.now sheet.now one.now) }
{
    match one {
        Use::Variable(_) => Ok(broken_use(alloc, names, one)?.is_none()),
        Use::Call(_, _, _) => Ok(broken_use(alloc, names, one)?.is_none()),
        Use::Template(place, _) => Ok(is_named(sheet.templates.as_slice(), *place)),
        Use::Apply(mode) => Ok(is_mode(&sheet.modes, *mode)),
    }
}

fn uses_are_declared(
    alloc: Allocator,
    names: &Names,
    sheet: &Sheet,
    uses: &[Use],
) -> Result<bool, AllocError>
    ensures { IfOk result (λ declared. declared
        ≡ list_all (is_declared names.now sheet.now) uses.now) }
{
    for one in uses {
        if !is_declared(alloc, names, sheet, one)? {
            return Ok(false);
        }
    }
    Ok(true)
}

fn all_declared(alloc: Allocator, names: &Names, sheet: &Sheet) -> Result<bool, AllocError>
    ensures { IfOk result (λ declared. declared ≡ all_declared names.now sheet.now) }
{
    let uses = uses_of(sheet)?;
    uses_are_declared(alloc, names, sheet, uses.as_slice())
}

fn keys_call_none(functions: &Functions, sheet: &Sheet) -> Result<bool, AllocError>
    ensures { IfOk result (λ none. none ≡ keys_call_none functions.now sheet.now) }
{
    let uses = key_uses_of(sheet)?;
    let mut codes = List::new(uses.allocator());
    push_called(functions, uses.as_slice(), &mut codes)?;
    Ok(codes.is_empty())
}

/// Whether each variable, function, named template, key and mode that it uses is declared in it or
/// bound where it is used, and no grouping key and no `use` of a key calls a function of its own.
#[tactic(auto, unfolding(crate::specs::Declared::keeps_names))]
pub(crate) fn keeps_names(sheet: &Sheet) -> Result<bool, AllocError>
    ensures { IfOk result (λ keeps. keeps ≡ keeps_names sheet.now) }
{
    let alloc = sheet.globals.allocator();
    let names = names_of(alloc, sheet)?;
    Ok(all_declared(alloc, &names, sheet)? && keys_call_none(&names.functions, sheet)?)
}
