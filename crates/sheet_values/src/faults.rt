// Rules of stylesheets that are broken.
ghost use Rattle.std.specs.Prelude.{◌≡◌, ◌∷◌, [], ℕ, List as Items};
ghost use Rattle.xt_names.specs.declared.codes.Code.{Code as AnyCode};
ghost use Rattle.xt_names.specs.declared.codes.Code.TheVariants.{SheetStatic};
ghost use Rattle.xt_names.specs.declared.names.ExprName.{ExprName as AnyName};
ghost use Rattle.xt_types.specs.declared.node_tests.NameTest.{NameTest as AnyTest};
ghost use Rattle.expr_names.specs.declared.fault.ResolveFault.TheVariants.{Static};
ghost use Rattle.expr_names.specs.Answers.{Answers};
ghost use Rattle.sheet_values.specs.Rules.{broken, as_prefix};

use expr_names::ResolveFault;
use xt_names::{Code, ExprName, SheetStaticCode};
use xt_types::NameTest;

/// The fault of a broken rule of stylesheets (XSLT 2.0, 2.9).
pub fn sheet_fault(code: SheetStaticCode) -> ResolveFault
    ensures { result ≡ Static (SheetStatic code) }
{
    ResolveFault::Static(Code::SheetStatic(code))
}

/// Refuses where the rule is broken.
pub(crate) fn refuse_if(code: SheetStaticCode, is_broken: bool) -> Result<(), ResolveFault>
    ensures { Answers result (broken code is_broken) tt }
{
    if is_broken {
        return Err(sheet_fault(code));
    }
    Ok(())
}

/// A prefix that is not declared has a code of its own in stylesheets.
pub(crate) fn named_in_scope(
    found: Result<ExprName, ResolveFault>,
) -> Result<ExprName, ResolveFault>
    ensures { (faults : Items AnyCode) (name : AnyName) → Answers found faults name
        → Answers result (as_prefix faults) name }
{
    match found {
        Ok(name) => Ok(name),
        Err(ResolveFault::Static(_)) => Err(sheet_fault(SheetStaticCode::XTSE0280)),
        Err(ResolveFault::Memory(e)) => Err(ResolveFault::Memory(e)),
    }
}

/// The same of a name test.
pub(crate) fn tested_in_scope(
    found: Result<NameTest, ResolveFault>,
) -> Result<NameTest, ResolveFault>
    ensures { (faults : Items AnyCode) (test : AnyTest) → Answers found faults test
        → Answers result (as_prefix faults) test }
{
    match found {
        Ok(test) => Ok(test),
        Err(ResolveFault::Static(_)) => Err(sheet_fault(SheetStaticCode::XTSE0280)),
        Err(ResolveFault::Memory(e)) => Err(ResolveFault::Memory(e)),
    }
}
