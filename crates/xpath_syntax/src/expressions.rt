// From the tokens of a text to the expression.
ghost use Rattle.std.specs.Prelude.{◌≡◌, map, option_map, IfOk};
ghost use Rattle.expr_tokens.specs.Terms.{terms_of, written};
ghost use Rattle.xpath_syntax.specs.Readings.{Gives, reading, reading_of, resolved};
ghost use Rattle.xpath_syntax.specs.Spelled.{Parsed};

use expr_names::ResolveFault;
use expr_reader::{Reading, parse};
use expr_resolve::{Setting, resolve};
use expr_terms::{Language, Raw, Token as Term};
use expr_tokens::terms;
use std::alloc::Global;
use xpath_lex::Token;
use xt_names::List;
use xt_syntax::{Expr, ParseFault};

/// What the raw value means.
#[tactic(auto, using(crate::proofs::ReadingLemmas::resolving))]
fn meant(alloc: Global, setting: &Setting, raw: Raw) -> Result<Expr, ParseFault>
    ensures { Gives result (resolved setting.now raw) }
{
    let found = resolve(alloc, setting, &raw);
    drop(raw);
    match found {
        Ok(e) => Ok(e),
        Err(ResolveFault::Static(code)) => Err(ParseFault::Static(code)),
        Err(ResolveFault::Memory(e)) => Err(ParseFault::Memory(e)),
    }
}

/// What the tokens of the grammar are read as.
fn read(alloc: Global, setting: &Setting, terms: Vec<Term>, limit: u16) -> Result<Expr, ParseFault>
    ensures { Gives result (reading_of setting.now limit terms.items) }
{
    let found = parse(alloc, Language::Xpath, terms.as_slice(), limit);
    drop(terms);
    match found {
        Err(e) => Err(ParseFault::Memory(e)),
        Ok(Reading::Nothing) => Err(ParseFault::Syntax),
        Ok(Reading::TooDeep) => Err(ParseFault::TooDeep),
        Ok(Reading::Value(raw)) => meant(alloc, setting, raw),
    }
}

/// The expression that the tokens spell, as prefixes and names without prefix are resolved here
/// (XPath 2.0, A.1). `Syntax` comes exactly where they spell nothing, `TooDeep` exactly where what
/// they spell nests deeper than the limit (and then there are as many tokens as the limit at least),
/// and `Static` with the code of the first static rule that it breaks otherwise.
#[tactic(auto, using(crate::proofs::ReadingLemmas::answers))]
pub fn parse_expr(
    alloc: Global,
    tokens: &List<Token<'_>>,
    setting: &Setting,
    limit: u16,
) -> Result<Expr, ParseFault>
    ensures spelled { Parsed result setting.now limit (map written tokens.now) }
    ensures value { Gives result (reading setting.now limit (map written tokens.now)) }
{
    match terms(alloc, tokens.as_slice()) {
        Err(e) => Err(ParseFault::Memory(e)),
        Ok(None) => Err(ParseFault::Syntax),
        Ok(Some(terms)) => read(alloc, setting, terms, limit),
    }
}
