// What puts items into one group.
ghost use Rattle.std.specs.Prelude.{◌≡◌, codes};
ghost use Rattle.expr_names.specs.Answers.{Answers};
ghost use Rattle.sheet_table.specs.Attributes.{attribute};
ghost use Rattle.sheet_heads.specs.Attributes.{needed_faults, needed_value};
ghost use Rattle.sheet_heads.specs.Groupings.{is_one, grouping_faults};
ghost use Rattle.xt_sheets.specs.declared.values.Grouping.TheVariants.{By, Adjacent, Starting};
ghost use Rattle.sheet_heads.specs.Groupings.{key_faults, key_value, grouping_value};

use crate::parts::refuse_if;
use expr_names::ResolveFault;
use sheet_table::{attribute, has};
use sheet_values::sheet_fault;
use sheet_values::sheet_texts::{Reader, StaticContext};
use std::alloc::Global;
use xt_names::{Shared, SheetStaticCode};
use xt_sheets::values::Grouping;
use xt_tree::Attribute;

fn is_one(first: bool, second: bool, third: bool) -> bool
    ensures { result ≡ is_one first second third }
{
    (first && !second && !third) || (!first && second && !third) || (!first && !second && third)
}

fn starting<R: Reader>(
    alloc: Global,
    reader: &R,
    place: &StaticContext,
    attributes: &[Attribute],
) -> Result<Grouping<R::Expr, R::Pattern>, ResolveFault>
    ensures { Answers result
        (needed_faults ((R.reads reader.now).patterns_faults place.now)
        (attribute attributes.now (codes "group-starting-with")))
        (Starting (needed_value ((R.reads reader.now).patterns_value place.now)
        (attribute attributes.now (codes "group-starting-with")))) }
{
    match attribute(attributes, "group-starting-with") {
        None => Err(sheet_fault(SheetStaticCode::XTSE0010)),
        Some(text) => {
            let patterns = reader.patterns(alloc, place, text)?;
            let patterns = Shared::make(alloc, patterns)?;
            Ok(Grouping::Starting(patterns))
        }
    }
}

fn adjacent_key<R: Reader>(
    alloc: Global,
    reader: &R,
    place: &StaticContext,
    attributes: &[Attribute],
) -> Result<Grouping<R::Expr, R::Pattern>, ResolveFault>
    ensures { Answers result
        (needed_faults ((R.reads reader.now).expr_faults place.now)
        (attribute attributes.now (codes "group-adjacent")))
        (Adjacent (needed_value ((R.reads reader.now).expr_value place.now)
        (attribute attributes.now (codes "group-adjacent")))) }
{
    match attribute(attributes, "group-adjacent") {
        None => Err(sheet_fault(SheetStaticCode::XTSE0010)),
        Some(text) => Ok(Grouping::Adjacent(reader.expr(alloc, place, text)?)),
    }
}

fn key_of_all<R: Reader>(
    alloc: Global,
    reader: &R,
    place: &StaticContext,
    attributes: &[Attribute],
) -> Result<Grouping<R::Expr, R::Pattern>, ResolveFault>
    ensures { Answers result
        (needed_faults ((R.reads reader.now).expr_faults place.now)
        (attribute attributes.now (codes "group-by")))
        (By (needed_value ((R.reads reader.now).expr_value place.now)
        (attribute attributes.now (codes "group-by")))) }
{
    match attribute(attributes, "group-by") {
        None => Err(sheet_fault(SheetStaticCode::XTSE0010)),
        Some(text) => Ok(Grouping::By(reader.expr(alloc, place, text)?)),
    }
}

/// The key, by the first attribute that says one.
fn key<R: Reader>(
    alloc: Global,
    reader: &R,
    place: &StaticContext,
    attributes: &[Attribute],
    by: bool,
    adjacent: bool,
) -> Result<Grouping<R::Expr, R::Pattern>, ResolveFault>
    ensures { Answers result
        (key_faults (R.reads reader.now) place.now attributes.now by adjacent)
        (key_value (R.reads reader.now) place.now attributes.now by adjacent) }
{
    if by {
        key_of_all(alloc, reader, place, attributes)
    } else if adjacent {
        adjacent_key(alloc, reader, place, attributes)
    } else {
        starting(alloc, reader, place, attributes)
    }
}

/// What puts items into one group (XSLT 2.0, 14.3). XTSE1080 where not exactly one attribute says
/// it.
pub(crate) fn grouping<R: Reader>(
    alloc: Global,
    reader: &R,
    place: &StaticContext,
    attributes: &[Attribute],
) -> Result<Grouping<R::Expr, R::Pattern>, ResolveFault>
    ensures { Answers result (grouping_faults (R.reads reader.now) place.now attributes.now)
        (grouping_value (R.reads reader.now) place.now attributes.now) }
{
    let by = has(attributes, "group-by");
    let adjacent = has(attributes, "group-adjacent");
    let starting_with = has(attributes, "group-starting-with");
    refuse_if(
        SheetStaticCode::XTSE1080,
        !is_one(by, adjacent, starting_with),
    )?;
    key(alloc, reader, place, attributes, by, adjacent)
}
