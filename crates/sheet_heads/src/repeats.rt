// Names that stand twice.
ghost use Rattle.std.specs.Prelude.{◌≡◌, map, IfOk};
ghost use Rattle.expr_names.specs.Answers.{Answers};
ghost use Rattle.sheet_heads.specs.Repeats.{bound_name, repeats_broken};

use crate::parts::refuse_if;
use expr_names::ResolveFault;
use name_rules::names_differ;
use std::alloc::{AllocError, Global};
use xt_names::{ExprName, List, SheetStaticCode};
use xt_sheets::instrs::Bound;

#[tactic(auto, unfolding(crate::specs::Repeats::bound_name))]
fn bound_names<E, P>(alloc: Global, bounds: &[Bound<E, P>]) -> Result<List<ExprName>, AllocError>
    ensures { IfOk result (λ names. names ≡ map bound_name bounds.now) }
{
    let mut made = List::new(alloc);
    for bound in bounds {
        made.push(bound.name.copy()?)?;
    }
    Ok(made)
}

/// Refuses two of one name, with this code (XSLT 2.0, 9.2 and 10.1.1).
pub fn check_repeats<E, P>(
    alloc: Global,
    code: SheetStaticCode,
    bounds: &[Bound<E, P>],
) -> Result<(), ResolveFault>
    ensures { Answers result (repeats_broken code bounds.now) tt }
{
    let names = bound_names(alloc, bounds)?;
    let differ = names_differ(&names)?;
    refuse_if(code, !differ)
}
