// Parameters that calls of templates pass.
ghost use Rattle.std.specs.Prelude.{◌≡◌, ◌++◌, Some, slice_get, IfOk, OnOk};
ghost use Rattle.std.specs.List.{list_all};
ghost use Rattle.name_rules.specs.Scopes.{has_name};
ghost use Rattle.sheet_rules.specs.WideRules.Passing.{parameters_of, is_required, passes_in_vain, leaves_out};
ghost use Rattle.sheet_rules.specs.WideRules.Passing.{passing_codes, broken_passing, broken_passings};

use crate::wide_rules::doubles::push_if;
use name_rules::VariableScope;
use sheet_uses::Use;
use std::alloc::{AllocError, Global};
use xt_names::{Code, ExprName, List, SheetStaticCode};
use xt_sheets::instrs::{Bound, Value};

/// The ordinary parameters of a template: those that are no tunnel parameters.
#[derive(Drop)]
pub struct Parameters {
    /// Their names.
    pub ordinary: VariableScope,
    /// The names of those that are required, in order.
    pub required: List<ExprName>,
}

/// The ordinary parameters among these.
pub fn parameters_of<E, P>(alloc: Global, params: &[Bound<E, P>]) -> Result<Parameters, AllocError>
    ensures { IfOk result (λ parameters. parameters ≡ parameters_of params.now) }
{
    let mut ordinary = VariableScope::new(alloc)?;
    let mut required = List::new(alloc);
    for param in params {
        if !param.tunnel {
            ordinary = ordinary.with(param.name.copy()?)?;
            if is_required(param) {
                required.push(param.name.copy()?)?;
            }
        }
    }
    Ok(Parameters { ordinary, required })
}

fn is_required<E, P>(param: &Bound<E, P>) -> bool
    ensures { result ≡ is_required param.now }
{
    match &param.value {
        Value::Required => true,
        _ => false,
    }
}

/// Puts after the codes, for each call of a template with these parameters: XTSE0680, where an
/// ordinary parameter is passed that the template has not, then XTSE0690, where an ordinary one
/// that it requires is not passed (XSLT 2.0, 10.1.1). The templates stand by their numbers; a call
/// of one that is not there breaks neither rule.
pub fn push_broken_passing(
    templates: &[Parameters],
    uses: &[Use],
    codes: &mut List<Code>,
) -> Result<(), AllocError>
    ensures { OnOk result (codes.new ≡ codes.old ++ broken_passings templates.now uses.now) }
{
    for one in uses {
        push_broken(templates, one, codes)?;
    }
    Ok(())
}

#[tactic(auto, unfolding(crate::specs::WideRules::Passing::broken_passing))]
fn push_broken(
    templates: &[Parameters],
    one: &Use,
    codes: &mut List<Code>,
) -> Result<(), AllocError>
    ensures { OnOk result (codes.new ≡ codes.old ++ broken_passing templates.now one.now) }
{
    match one {
        Use::Template(number, passed) => push_call(templates, *number, passed, codes),
        Use::Variable(_) | Use::Call(_, _, _) | Use::Apply(_) => Ok(()),
    }
}

fn push_call(
    templates: &[Parameters],
    number: u32,
    passed: &List<ExprName>,
    codes: &mut List<Code>,
) -> Result<(), AllocError>
    ensures { OnOk result (codes.new
        ≡ codes.old ++ passing_codes (slice_get templates.now number) passed.now) }
{
    match templates.get(number as usize) {
        Some(parameters) => push_passing(parameters, passed, codes),
        None => Ok(()),
    }
}

fn push_passing(
    parameters: &Parameters,
    passed: &List<ExprName>,
    codes: &mut List<Code>,
) -> Result<(), AllocError>
    ensures { OnOk result (codes.new
        ≡ codes.old ++ passing_codes (Some parameters.now) passed.now) }
{
    let vain = passes_in_vain(parameters, passed.as_slice());
    push_if(codes, vain, SheetStaticCode::XTSE0680)?;
    let left_out = leaves_out(parameters, passed)?;
    push_if(codes, left_out, SheetStaticCode::XTSE0690)
}

fn passes_in_vain(parameters: &Parameters, passed: &[ExprName]) -> bool
    ensures { result ≡ passes_in_vain parameters.now passed.now }
{
    !has_all(&parameters.ordinary, passed)
}

fn leaves_out(parameters: &Parameters, passed: &List<ExprName>) -> Result<bool, AllocError>
    ensures { IfOk result (λ left_out. left_out ≡ leaves_out parameters.now passed.now) }
{
    if parameters.required.is_empty() {
        return Ok(false);
    }
    let given = VariableScope::new(passed.allocator())?.with_all(passed)?;
    let complete = has_all(&given, parameters.required.as_slice());
    Ok(!complete)
}

fn has_all(scope: &VariableScope, names: &[ExprName]) -> bool
    ensures { result ≡ list_all (has_name scope.now) names.now }
{
    for name in names {
        if !scope.has(name) {
            return false;
        }
    }
    true
}
