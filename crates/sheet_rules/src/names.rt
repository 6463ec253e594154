// What a stylesheet declares by names.
ghost use Rattle.std.specs.Prelude.{◌≡◌, ◌++◌, [], map, IfOk, OnOk};
ghost use Rattle.name_rules.specs.Scopes.{with_name, with_names};
ghost use Rattle.sheet_expressions.specs.SheetNames.Names.{as_name};
ghost use Rattle.sheet_expressions.specs.Keys.{braced};
ghost use Rattle.sheet_rules.specs.Names.{global_names, template_names, with_functions, with_keys};
ghost use Rattle.sheet_rules.specs.Names.{with_function_of, with_keys_of, key_name, names_of};
ghost use Rattle.sheet_rules.specs.Names.{missing_codes};

use crate::sheet_declarations::Declaration;
use name_rules::{Functions, VariableScope};
use sheet_expressions::sheet_names::{Names, with_key};
use sheet_modules::{KeyPart, Part};
use std::alloc::{AllocError, Global};
use xt_names::{Code, ExprName, List, SheetStaticCode};

fn variables_of<E, P>(
    alloc: Global,
    declarations: &[Declaration<E, P>],
) -> Result<VariableScope, AllocError>
    ensures { IfOk result (λ scope. scope ≡ with_names [] (global_names declarations.now)) }
{
    let mut scope = VariableScope::new(alloc)?;
    for one in declarations {
        if let Part::Global(global) = one.part.get() {
            scope = scope.with(global.bound.name.copy()?)?;
        }
    }
    Ok(scope)
}

fn templates_of<E, P>(
    alloc: Global,
    declarations: &[Declaration<E, P>],
) -> Result<VariableScope, AllocError>
    ensures { IfOk result (λ scope. scope ≡ with_names [] (template_names declarations.now)) }
{
    let mut scope = VariableScope::new(alloc)?;
    for one in declarations {
        if let Part::Template(template, _) = one.part.get()
            && let Some(name) = &template.name
        {
            scope = scope.with(name.copy()?)?;
        }
    }
    Ok(scope)
}

fn functions_of<E, P>(
    alloc: Global,
    declarations: &[Declaration<E, P>],
) -> Result<Functions, AllocError>
    ensures { IfOk result (λ functions. functions ≡ with_functions [] declarations.now) }
{
    let mut functions = Functions::new(alloc);
    for one in declarations {
        if let Part::Function(function) = one.part.get() {
            functions.declare(&function.name, function.params.len())?;
        }
    }
    Ok(functions)
}

fn with_all_keys<E, P>(
    alloc: Global,
    scope: VariableScope,
    keys: &[KeyPart<E, P>],
) -> Result<VariableScope, AllocError>
    ensures { IfOk result (λ all. all ≡ with_names scope (map key_name keys.now)) }
{
    let mut all = scope;
    for key in keys {
        all = with_key(alloc, all, &key.name)?;
    }
    Ok(all)
}

fn keys_of<E, P>(
    alloc: Global,
    declarations: &[Declaration<E, P>],
) -> Result<VariableScope, AllocError>
    ensures { IfOk result (λ scope. scope ≡ with_keys [] declarations.now) }
{
    let mut scope = VariableScope::new(alloc)?;
    for one in declarations {
        if let Part::Key(keys) = one.part.get() {
            scope = with_all_keys(alloc, scope, keys.as_slice())?;
        }
    }
    Ok(scope)
}

/// The global variables and parameters, the functions and the keys that are declared (XSLT 2.0,
/// 9.5, 10.3 and 16.3); all templates with numbers below this one count as declared.
pub fn names_of<E, P>(
    alloc: Global,
    declarations: &[Declaration<E, P>],
    templates: u32,
) -> Result<Names, AllocError>
    ensures { IfOk result (λ names. names ≡ names_of declarations.now templates) }
{
    Ok(Names {
        variables: variables_of(alloc, declarations)?,
        functions: functions_of(alloc, declarations)?,
        keys: keys_of(alloc, declarations)?,
        templates,
    })
}

/// Puts XTSE0650 after the codes for each of these names that no template has (XSLT 2.0, 10.1).
pub fn push_missing<E, P>(
    alloc: Global,
    called: &[ExprName],
    declarations: &[Declaration<E, P>],
    codes: &mut List<Code>,
) -> Result<(), AllocError>
    ensures { OnOk result (codes.new
        ≡ codes.old ++ missing_codes (with_names [] (template_names declarations.now)) called.now) }
{
    let declared = templates_of(alloc, declarations)?;
    push_missing_of(&declared, called, codes)
}

fn push_missing_of(
    declared: &VariableScope,
    called: &[ExprName],
    codes: &mut List<Code>,
) -> Result<(), AllocError>
    ensures { OnOk result (codes.new ≡ codes.old ++ missing_codes declared.now called.now) }
{
    for name in called {
        if !declared.has(name) {
            codes.push(Code::SheetStatic(SheetStaticCode::XTSE0650))?;
        }
    }
    Ok(())
}
