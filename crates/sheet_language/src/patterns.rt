// Patterns.
ghost use Rattle.expr_names.specs.Answers.{Answers};
ghost use Rattle.pattern_syntax.specs.Readings.{Answer, Gives};
ghost use Rattle.sheet_language.specs.Language.{answer_faults, answer_value};
ghost use Rattle.sheet_language.specs.Language.{patterns_faults, patterns_value};

use crate::settings::{nothing_spelled, setting_at, too_deep};
use expr_names::ResolveFault;
use pattern_syntax::pattern_readings::parse_text;
use sheet_values::sheet_texts::StaticContext;
use std::alloc::Global;
use xt_names::{List, Text};
use xt_syntax::{ParseFault, Pattern};

fn resolved(found: Result<List<Pattern>, ParseFault>) -> Result<List<Pattern>, ResolveFault>
    ensures { (a : Answer) → Gives found a → Answers result (answer_faults a) (answer_value a) }
{
    match found {
        Ok(all) => Ok(all),
        Err(ParseFault::Syntax) => Err(nothing_spelled()),
        Err(ParseFault::Static(code)) => Err(ResolveFault::Static(code)),
        Err(ParseFault::TooDeep) => Err(too_deep()),
        Err(ParseFault::Memory(e)) => Err(ResolveFault::Memory(e)),
    }
}

/// The alternatives of the pattern that the text means at the place (XSLT 2.0, 5.5.2). XPST0003
/// where it spells no expression, XTLM0004 where it nests deeper than 40 levels, and else the codes
/// of `pattern_syntax::parse_pattern`.
pub(crate) fn patterns_at(
    alloc: Global,
    place: &StaticContext,
    text: &Text,
) -> Result<List<Pattern>, ResolveFault>
    ensures { Answers result (patterns_faults place.now text.now)
        (patterns_value place.now text.now) }
{
    let setting = setting_at(alloc, &place.bound)?;
    let found = parse_text(alloc, text.as_str(), &setting);
    drop(setting);
    resolved(found)
}
