// Sequence types.
ghost use Rattle.expr_names.specs.Answers.{Answers};
ghost use Rattle.pattern_syntax.specs.ExprResolve.Folds.{type_broken, type_meant};
ghost use Rattle.sheet_language.specs.Language.{raw_type_faults, raw_type_value};
ghost use Rattle.sheet_language.specs.Language.{type_faults, type_value};

use crate::settings::{LIMIT, nothing_spelled, setting_at, too_deep};
use expr_names::ResolveFault;
use expr_reader::Reading;
use expr_terms::Raw;
use pattern_syntax::expr_resolve::{Setting, resolve_type};
use sheet_values::sheet_texts::StaticContext;
use std::alloc::Global;
use xpath_syntax::expr_readings::raw_type;
use xt_names::Text;
use xt_types::SeqType;

fn meant(alloc: Global, setting: &Setting, raw: Raw) -> Result<SeqType, ResolveFault>
    ensures { Answers result (type_broken setting.now raw) (type_meant setting.now raw) }
{
    let found = resolve_type(alloc, setting, &raw);
    drop(raw);
    found
}

fn read(alloc: Global, setting: &Setting, reading: Reading) -> Result<SeqType, ResolveFault>
    ensures { Answers result (raw_type_faults setting.now reading)
        (raw_type_value setting.now reading) }
{
    match reading {
        Reading::Nothing => Err(nothing_spelled()),
        Reading::TooDeep => Err(too_deep()),
        Reading::Value(raw) => meant(alloc, setting, raw),
    }
}

/// The type that the text means at the place (XPath 2.0, 2.5.3). XPST0003 where it spells none, and
/// else the code of the first static rule that it breaks.
pub(crate) fn type_at(
    alloc: Global,
    place: &StaticContext,
    text: &Text,
) -> Result<SeqType, ResolveFault>
    ensures { Answers result (type_faults place.now text.now) (type_value place.now text.now) }
{
    let reading = raw_type(alloc, text.as_str(), LIMIT)?;
    let setting = setting_at(alloc, &place.bound)?;
    read(alloc, &setting, reading)
}
