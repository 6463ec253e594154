// From a text to the alternatives of its pattern.
ghost use Rattle.std.specs.Str.{chars};
ghost use Rattle.pattern_syntax.specs.Readings.{Gives};
ghost use Rattle.pattern_syntax.specs.Spelled.{Parsed};
ghost use Rattle.pattern_syntax.specs.PatternReadings.Readings.{text_reading};

use crate::{LIMIT, parse_pattern};
use expr_resolve::Setting;
use std::alloc::Global;
use xt_names::List;
use xt_syntax::{ParseFault, Pattern};

/// The alternatives of the pattern that the text spells, in order, as prefixes and names without
/// prefix are resolved here (XSLT 2.0, 5.5.2). Where it spells none, the cause is that of
/// `crate::parse_pattern`.
#[tactic(auto, using(crate::proofs::PatternReadings::ReadingLemmas::parsing))]
pub fn parse_text(alloc: Global, text: &str, setting: &Setting) -> Result<List<Pattern>, ParseFault>
    ensures spelled { Parsed result setting.now LIMIT text.now }
    ensures value { Gives result (text_reading setting.now LIMIT (chars text.now)) }
{
    parse_pattern(alloc, text, setting)
}
