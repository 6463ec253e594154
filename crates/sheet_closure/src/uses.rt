// What a stylesheet uses.
ghost use Rattle.std.specs.Prelude.{◌≡◌, IfOk, OnOk, map};
ghost use Rattle.sheet_uses.specs.Exprs.{all_in};
ghost use Rattle.sheet_closure.specs.Uses.{global_uses, template_uses, function_uses, key_uses};
ghost use Rattle.sheet_closure.specs.Uses.{uses_of, global_keys, template_keys, function_keys};
ghost use Rattle.sheet_closure.specs.Uses.{key_uses_of};

use name_rules::VariableScope;
use sheet_uses::key_calls::{push_bound_keys, push_callee_keys};
use sheet_uses::{Use, push_bound_uses, push_callee_uses, push_expr_uses};
use std::alloc::AllocError;
use xt_names::List;
use xt_sheets::{Global, KeyRule, Sheet, SheetFunction, Template};

fn push_globals(
    all: &[Global],
    scope: &VariableScope,
    found: &mut List<Use>,
) -> Result<(), AllocError>
    ensures { OnOk result (found.new ≡ all_in (map global_uses all.now) scope.now found.old) }
{
    for global in all {
        push_bound_uses(&global.bound, scope, found)?;
    }
    Ok(())
}

fn push_templates(
    all: &[Template],
    scope: &VariableScope,
    found: &mut List<Use>,
) -> Result<(), AllocError>
    ensures { OnOk result (found.new ≡ all_in (map template_uses all.now) scope.now found.old) }
{
    for template in all {
        let params = template.params.as_slice();
        push_callee_uses(params, template.body.as_slice(), scope, found)?;
    }
    Ok(())
}

fn push_functions(
    all: &[SheetFunction],
    scope: &VariableScope,
    found: &mut List<Use>,
) -> Result<(), AllocError>
    ensures { OnOk result (found.new ≡ all_in (map function_uses all.now) scope.now found.old) }
{
    for function in all {
        let params = function.params.as_slice();
        push_callee_uses(params, function.body.as_slice(), scope, found)?;
    }
    Ok(())
}

fn push_keys(
    all: &[KeyRule],
    scope: &VariableScope,
    found: &mut List<Use>,
) -> Result<(), AllocError>
    ensures { OnOk result (found.new ≡ all_in (map key_uses all.now) scope.now found.old) }
{
    for key in all {
        push_expr_uses(&key.key, scope, found)?;
    }
    Ok(())
}

/// What the stylesheet uses of what is declared in it (XSLT 2.0, 9 and 10).
#[tactic(auto, unfolding(crate::specs::Uses::uses_of))]
pub(crate) fn uses_of(sheet: &Sheet) -> Result<List<Use>, AllocError>
    ensures { IfOk result (λ uses. uses ≡ uses_of sheet.now) }
{
    let alloc = sheet.globals.allocator();
    let scope = VariableScope::new(alloc)?;
    let mut found = List::new(alloc);
    push_globals(sheet.globals.as_slice(), &scope, &mut found)?;
    push_templates(sheet.templates.as_slice(), &scope, &mut found)?;
    push_functions(sheet.functions.as_slice(), &scope, &mut found)?;
    push_keys(sheet.keys.as_slice(), &scope, &mut found)?;
    Ok(found)
}

fn push_global_keys(
    all: &[Global],
    scope: &VariableScope,
    found: &mut List<Use>,
) -> Result<(), AllocError>
    ensures { OnOk result (found.new ≡ all_in (map global_keys all.now) scope.now found.old) }
{
    for global in all {
        push_bound_keys(&global.bound, scope, found)?;
    }
    Ok(())
}

fn push_template_keys(
    all: &[Template],
    scope: &VariableScope,
    found: &mut List<Use>,
) -> Result<(), AllocError>
    ensures { OnOk result (found.new ≡ all_in (map template_keys all.now) scope.now found.old) }
{
    for template in all {
        let params = template.params.as_slice();
        push_callee_keys(params, template.body.as_slice(), scope, found)?;
    }
    Ok(())
}

fn push_function_keys(
    all: &[SheetFunction],
    scope: &VariableScope,
    found: &mut List<Use>,
) -> Result<(), AllocError>
    ensures { OnOk result (found.new ≡ all_in (map function_keys all.now) scope.now found.old) }
{
    for function in all {
        let params = function.params.as_slice();
        push_callee_keys(params, function.body.as_slice(), scope, found)?;
    }
    Ok(())
}

/// What the grouping keys of the stylesheet, and `use` of its keys, use of what is declared in it
/// (XSLT 2.0, 14.3 and 16.3).
#[tactic(auto, unfolding(crate::specs::Uses::key_uses_of))]
pub(crate) fn key_uses_of(sheet: &Sheet) -> Result<List<Use>, AllocError>
    ensures { IfOk result (λ uses. uses ≡ key_uses_of sheet.now) }
{
    let alloc = sheet.globals.allocator();
    let scope = VariableScope::new(alloc)?;
    let mut found = List::new(alloc);
    push_global_keys(sheet.globals.as_slice(), &scope, &mut found)?;
    push_template_keys(sheet.templates.as_slice(), &scope, &mut found)?;
    push_function_keys(sheet.functions.as_slice(), &scope, &mut found)?;
    push_keys(sheet.keys.as_slice(), &scope, &mut found)?;
    Ok(found)
}
