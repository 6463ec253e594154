// From a text to the expression.
ghost use Rattle.std.specs.Str.{chars};
ghost use Rattle.xpath_syntax.specs.Readings.{Gives};
ghost use Rattle.xpath_syntax.specs.ExprReadings.Readings.{expr_reading};

use crate::parse_expr;
use expr_resolve::Setting;
use expr_tokens::text_tokens::lexed;
use std::alloc::Global;
use xt_syntax::{Expr, ParseFault};

/// The expression that the text spells, as prefixes and names without prefix are resolved here
/// (XPath 2.0, A). `Syntax` comes exactly where it spells nothing, `TooDeep` exactly where what it
/// spells nests deeper than the limit, and `Static` with the code of the first static rule that it
/// breaks otherwise.
#[tactic(auto, using(crate::proofs::ExprReadings::ReadingLemmas::parsing))]
pub fn parse_text(
    alloc: Global,
    text: &str,
    setting: &Setting,
    limit: u16,
) -> Result<Expr, ParseFault>
    ensures { Gives result (expr_reading setting.now limit (chars text.now)) }
{
    match lexed(alloc, text) {
        Err(e) => Err(ParseFault::Memory(e)),
        Ok(None) => Err(ParseFault::Syntax),
        Ok(Some(tokens)) => {
            let found = parse_expr(alloc, &tokens, setting, limit);
            drop(tokens);
            found
        }
    }
}
