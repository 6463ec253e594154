// Calls of functions that a stylesheet declares.
ghost use Rattle.std.specs.Prelude.{◌≡◌, ◌++◌, OnOk, IfOk};
ghost use Rattle.sheet_uses.specs.KeyCalls.Called.{is_declared, called_code, called_codes};

use crate::Use;
use name_rules::Functions;
use std::alloc::AllocError;
use xt_names::{Code, List, SheetStaticCode};

#[tactic(auto, unfolding(crate::specs::KeyCalls::Called::is_declared))]
fn is_declared(functions: &Functions, one: &Use) -> Result<bool, AllocError>
    ensures { IfOk result (λ declared. declared ≡ is_declared functions.now one.now) }
{
    match one {
        Use::Call(name, arity, _) => functions.has(name, *arity),
        Use::Variable(_) | Use::Template(_, _) | Use::Apply(_) => Ok(false),
    }
}

/// Puts XTUN0001 after the codes for each call among the uses of one of these functions, which a
/// stylesheet declares (XSLT 2.0, 10.3).
pub fn push_called(
    functions: &Functions,
    uses: &[Use],
    codes: &mut List<Code>,
) -> Result<(), AllocError>
    ensures { OnOk result (codes.new ≡ codes.old ++ called_codes functions.now uses.now) }
{
    for one in uses {
        if is_declared(functions, one)? {
            codes.push(Code::SheetStatic(SheetStaticCode::XTUN0001))?;
        }
    }
    Ok(())
}
