// What declarations use.
ghost use Rattle.std.specs.Prelude.{◌≡◌, [], map, IfOk, OnOk};
ghost use Rattle.sheet_uses.specs.Exprs.{all_in};
ghost use Rattle.sheet_rules.specs.Uses.{use_of_key, part_uses, part_keys};
ghost use Rattle.sheet_rules.specs.Uses.{declared_uses, declared_keys};

use crate::sheet_declarations::Declaration;
use name_rules::VariableScope;
use sheet_modules::{KeyPart, Part};
use sheet_uses::key_calls::{push_bound_keys, push_callee_keys};
use sheet_uses::{Use, push_bound_uses, push_callee_uses, push_expr_uses};
use std::alloc::{AllocError, Global};
use xt_names::List;
use xt_syntax::{Expr, Pattern};

fn push_keys(
    keys: &[KeyPart<Expr, Pattern>],
    scope: &VariableScope,
    found: &mut List<Use>,
) -> Result<(), AllocError>
    ensures { OnOk result (found.new ≡ all_in (map use_of_key keys.now) scope.now found.old) }
{
    for key in keys {
        push_expr_uses(key.key.get(), scope, found)?;
    }
    Ok(())
}

fn push_part_uses(
    part: &Part<Expr, Pattern>,
    scope: &VariableScope,
    found: &mut List<Use>,
) -> Result<(), AllocError>
    ensures { OnOk result (found.new ≡ part_uses part.now scope.now found.old) }
{
    match part {
        Part::Global(global) => push_bound_uses(&global.bound, scope, found),
        Part::Template(template, _) => {
            let params = template.params.as_slice();
            push_callee_uses(params, template.body.as_slice(), scope, found)
        }
        Part::Function(function) => {
            let params = function.params.as_slice();
            push_callee_uses(params, function.body.as_slice(), scope, found)
        }
        Part::Key(keys) => push_keys(keys.as_slice(), scope, found),
        Part::Space(_) | Part::Output(_) | Part::Ignored | Part::Linked => Ok(()),
    }
}

/// What the declarations use of what is declared around them, in order (XSLT 2.0, 9 and 10).
pub fn uses_of(
    alloc: Global,
    declarations: &[Declaration<Expr, Pattern>],
) -> Result<List<Use>, AllocError>
    ensures { IfOk result (λ uses. uses ≡ declared_uses declarations.now [] []) }
{
    let scope = VariableScope::new(alloc)?;
    let mut found = List::new(alloc);
    push_uses(declarations, &scope, &mut found)?;
    Ok(found)
}

fn push_uses(
    declarations: &[Declaration<Expr, Pattern>],
    scope: &VariableScope,
    found: &mut List<Use>,
) -> Result<(), AllocError>
    ensures { OnOk result (found.new ≡ declared_uses declarations.now scope.now found.old) }
{
    for one in declarations {
        push_part_uses(one.part.get(), scope, found)?;
    }
    Ok(())
}

fn push_part_keys(
    part: &Part<Expr, Pattern>,
    scope: &VariableScope,
    found: &mut List<Use>,
) -> Result<(), AllocError>
    ensures { OnOk result (found.new ≡ part_keys part.now scope.now found.old) }
{
    match part {
        Part::Global(global) => push_bound_keys(&global.bound, scope, found),
        Part::Template(template, _) => {
            let params = template.params.as_slice();
            push_callee_keys(params, template.body.as_slice(), scope, found)
        }
        Part::Function(function) => {
            let params = function.params.as_slice();
            push_callee_keys(params, function.body.as_slice(), scope, found)
        }
        Part::Key(keys) => push_keys(keys.as_slice(), scope, found),
        Part::Space(_) | Part::Output(_) | Part::Ignored | Part::Linked => Ok(()),
    }
}

/// What the grouping keys within the declarations, and `use` of those of keys, use of what is
/// declared around them, in order (XSLT 2.0, 14.3 and 16.3).
pub fn key_uses_of(
    alloc: Global,
    declarations: &[Declaration<Expr, Pattern>],
) -> Result<List<Use>, AllocError>
    ensures { IfOk result (λ uses. uses ≡ declared_keys declarations.now [] []) }
{
    let scope = VariableScope::new(alloc)?;
    let mut found = List::new(alloc);
    push_key_uses(declarations, &scope, &mut found)?;
    Ok(found)
}

fn push_key_uses(
    declarations: &[Declaration<Expr, Pattern>],
    scope: &VariableScope,
    found: &mut List<Use>,
) -> Result<(), AllocError>
    ensures { OnOk result (found.new ≡ declared_keys declarations.now scope.now found.old) }
{
    for one in declarations {
        push_part_keys(one.part.get(), scope, found)?;
    }
    Ok(())
}
