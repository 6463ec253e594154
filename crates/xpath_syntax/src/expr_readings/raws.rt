// From a text to what it spells, as it is written.
ghost use Rattle.std.specs.Prelude.{◌≡◌, map, option_map, IfOk};
ghost use Rattle.std.specs.Str.{chars};
ghost use Rattle.expr_tokens.specs.Terms.{written, terms_of};
ghost use Rattle.xpath_syntax.specs.ExprReadings.Readings.{terms_in, raw_reading, type_reading};

use expr_reader::{Reading, parse, parse_type};
use expr_terms::{Language, Token as Term};
use expr_tokens::terms;
use expr_tokens::text_tokens::lexed;
use std::alloc::{AllocError, Global};

/// The tokens of the grammar that the text has; None where it has other ones, or none.
#[tactic(auto, using(crate::proofs::ExprReadings::ReadingLemmas::terms_found))]
fn terms_in(alloc: Global, text: &str) -> Result<Option<Vec<Term>>, AllocError>
    ensures { IfOk result (λ found. option_map (λ v. v.items) found ≡ terms_in (chars text.now)) }
{
    match lexed(alloc, text)? {
        None => Ok(None),
        Some(tokens) => {
            let found = terms(alloc, tokens.as_slice());
            drop(tokens);
            match found {
                Err(e) => Err(e),
                Ok(found) => Ok(found),
            }
        }
    }
}

/// What the text spells as an expression, where that nests no deeper than the limit (XPath 2.0, A).
#[tactic(auto, using(crate::proofs::ExprReadings::ReadingLemmas::raws))]
pub fn raw_expression(alloc: Global, text: &str, limit: u16) -> Result<Reading, AllocError>
    ensures { IfOk result (λ reading. reading ≡ raw_reading limit (chars text.now)) }
{
    match terms_in(alloc, text)? {
        None => Ok(Reading::Nothing),
        Some(terms) => {
            let found = parse(alloc, Language::Xpath, terms.as_slice(), limit);
            drop(terms);
            match found {
                Err(e) => Err(e),
                Ok(reading) => Ok(reading),
            }
        }
    }
}

/// What the text spells as a sequence type, where that nests no deeper than the limit (XPath 2.0,
/// 2.5.3).
#[tactic(auto, using(crate::proofs::ExprReadings::ReadingLemmas::raws))]
pub fn raw_type(alloc: Global, text: &str, limit: u16) -> Result<Reading, AllocError>
    ensures { IfOk result (λ reading. reading ≡ type_reading limit (chars text.now)) }
{
    match terms_in(alloc, text)? {
        None => Ok(Reading::Nothing),
        Some(terms) => {
            let found = parse_type(alloc, Language::Xpath, terms.as_slice(), limit);
            drop(terms);
            match found {
                Err(e) => Err(e),
                Ok(reading) => Ok(reading),
            }
        }
    }
}
