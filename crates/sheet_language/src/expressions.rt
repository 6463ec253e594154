// Expressions.
ghost use Rattle.expr_names.specs.Answers.{Answers};
ghost use Rattle.pattern_syntax.specs.ExprResolve.Folds.{broken_of, expr_meant};
ghost use Rattle.sheet_expressions.specs.Checked.{checked};
ghost use Rattle.sheet_language.specs.Language.{checked_faults, checked_value};
ghost use Rattle.sheet_language.specs.Language.{raw_faults, raw_value, expr_faults, expr_value};

use crate::settings::{LIMIT, nothing_spelled, setting_at, too_deep};
use expr_names::ResolveFault;
use expr_reader::Reading;
use expr_terms::Raw;
use pattern_syntax::expr_resolve::{Setting, resolve};
use sheet_expressions::checked;
use sheet_values::sheet_fault;
use sheet_values::sheet_texts::StaticContext;
use std::alloc::Global;
use xpath_syntax::expr_readings::raw_expression;
use xt_names::{Shared, SheetStaticCode, Text};
use xt_syntax::Expr;

fn meant(alloc: Global, setting: &Setting, raw: Raw) -> Result<Shared<Expr>, ResolveFault>
    ensures { Answers result (broken_of setting.now raw) (expr_meant setting.now raw) }
{
    let found = resolve(alloc, setting, &raw);
    drop(raw);
    match found {
        Err(fault) => Err(fault),
        Ok(e) => match Shared::make(alloc, e) {
            Err(e) => Err(ResolveFault::Memory(e)),
            Ok(e) => Ok(e),
        },
    }
}

fn allowed(alloc: Global, setting: &Setting, raw: Option<Raw>) -> Result<Shared<Expr>, ResolveFault>
    ensures { Answers result (checked_faults setting.now raw) (checked_value setting.now raw) }
{
    match raw {
        None => Err(sheet_fault(SheetStaticCode::XTUN0001)),
        Some(raw) => meant(alloc, setting, raw),
    }
}

fn spelled(
    alloc: Global,
    setting: &Setting,
    in_group: bool,
    raw: Raw,
) -> Result<Shared<Expr>, ResolveFault>
    ensures { Answers result
        (checked_faults setting.now (checked setting.now.prefixes in_group raw))
        (checked_value setting.now (checked setting.now.prefixes in_group raw)) }
{
    let found = checked(alloc, &setting.prefixes, in_group, &raw);
    drop(raw);
    match found {
        Err(e) => Err(ResolveFault::Memory(e)),
        Ok(raw) => allowed(alloc, setting, raw),
    }
}

fn read(
    alloc: Global,
    setting: &Setting,
    in_group: bool,
    reading: Reading,
) -> Result<Shared<Expr>, ResolveFault>
    ensures { Answers result (raw_faults setting.now in_group reading)
        (raw_value setting.now in_group reading) }
{
    match reading {
        Reading::Nothing => Err(nothing_spelled()),
        Reading::TooDeep => Err(too_deep()),
        Reading::Value(raw) => spelled(alloc, setting, in_group, raw),
    }
}

/// The expression that the text means at the place (XPath 2.0, 2; XSLT 2.0, 5.2). XPST0003 where it
/// spells none, XTLM0004 where that nests deeper than 40 levels, XTUN0001 where a call in it may not
/// stand there, and else the code of the first static rule that it breaks.
pub(crate) fn expr_at(
    alloc: Global,
    place: &StaticContext,
    text: &Text,
) -> Result<Shared<Expr>, ResolveFault>
    ensures { Answers result (expr_faults place.now text.now) (expr_value place.now text.now) }
{
    let reading = raw_expression(alloc, text.as_str(), LIMIT)?;
    let setting = setting_at(alloc, &place.bound)?;
    read(alloc, &setting, place.in_group, reading)
}
