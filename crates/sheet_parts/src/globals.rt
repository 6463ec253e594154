// Global variables and parameters.
ghost use Rattle.std.specs.Prelude.{List as Items};
ghost use Rattle.expr_names.specs.Answers.{Answers};
ghost use Rattle.xt_names.specs.declared.codes.Code.{Code};
ghost use Rattle.xt_sheets.specs.declared.instrs.Bound.{Bound as AnyBound};
ghost use Rattle.sheet_modules.specs.declared.modules.Part.TheVariants.{Global as AGlobal};
ghost use Rattle.sheet_parts.specs.Globals.{variable_faults, variable_value};
ghost use Rattle.sheet_parts.specs.Globals.{parameter_faults, parameter_value};

use crate::parameters::{MOST_LEVELS, check_tunnel};
use expr_names::ResolveFault;
use sheet_bodies::read_bound;
use sheet_modules::{GlobalPart, Part};
use sheet_table::XslElement;
use sheet_table::sheet_nodes::Node;
use sheet_values::sheet_texts::{Reader, StaticContext};
use std::alloc::Global;
use xt_sheets::instrs::Bound;
use xt_tree::Attribute;

fn global<E: Drop, P: Drop>(
    bound: Result<Bound<E, P>, ResolveFault>,
    param: bool,
) -> Result<Part<E, P>, ResolveFault>
    ensures { (faults : Items Code) (b : AnyBound E P) → Answers bound faults b
        → Answers result faults (AGlobal (record { bound = b; param = param })) }
{
    match bound {
        Err(fault) => Err(fault),
        Ok(bound) => Ok(Part::Global(GlobalPart { bound, param })),
    }
}

/// The global variable (XSLT 2.0, 9.5).
pub(crate) fn variable<R: Reader>(
    alloc: Global,
    reader: &R,
    place: &StaticContext,
    attributes: &[Attribute],
    kids: &[Node],
) -> Result<Part<R::Expr, R::Pattern>, ResolveFault>
    ensures { Answers result
        (variable_faults (R.reads reader.now) place.now attributes.now kids.now)
        (variable_value (R.reads reader.now) place.now attributes.now kids.now) }
{
    let bound = read_bound(
        alloc,
        reader,
        MOST_LEVELS,
        place,
        XslElement::Variable,
        attributes,
        kids,
    );
    global(bound, false)
}

/// The global parameter, which is no tunnel parameter: XTSE0020 (XSLT 2.0, 9.5 and 10.1.2).
pub(crate) fn parameter<R: Reader>(
    alloc: Global,
    reader: &R,
    place: &StaticContext,
    attributes: &[Attribute],
    kids: &[Node],
) -> Result<Part<R::Expr, R::Pattern>, ResolveFault>
    ensures { Answers result
        (parameter_faults (R.reads reader.now) place.now attributes.now kids.now)
        (parameter_value (R.reads reader.now) place.now attributes.now kids.now) }
{
    check_tunnel(attributes)?;
    let bound = read_bound(
        alloc,
        reader,
        MOST_LEVELS,
        place,
        XslElement::Param,
        attributes,
        kids,
    );
    global(bound, true)
}
