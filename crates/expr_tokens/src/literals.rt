// Numbers and literals.
ghost use Rattle.std.specs.Prelude.{◌≡◌, ◌≤◌, ◌++◌, OnOk, IfOk};
ghost use Rattle.std.specs.Str.{chars};
ghost use Rattle.expr_tokens.specs.Literals.{number_value, unquoted, piece, next_quote, next_doubling};
ghost use Rattle.xt_names.specs.Characters.{digit};

use std::alloc::{AllocError, Global};
use xt_names::{Text, TextBuilder};

const GREATEST: u128 = 9223372036854775807;

/// What a digit counts.
fn digit(c: char) -> u128
    ensures value { result ≡ digit c }
    ensures small { result ≤ 4294967295 }
{
    u128::from(u32::from(c)).saturating_sub(48)
}

/// The integer of these digits; None where it is past 2^63-1 (XPath 2.0, 3.1.1).
#[tactic(auto, using(crate::proofs::NumberLemmas::numbers))]
pub fn number(digits: &str) -> Option<i64>
    ensures { result ≡ number_value (chars digits.now) }
{
    let mut value: u128 = 0;
    for c in digits.chars() {
        if value <= GREATEST {
            value = 10 * value + digit(c);
        }
    }
    if value <= GREATEST {
        Some(value as i64)
    } else {
        None
    }
}

fn push_piece(
    made: &mut TextBuilder,
    quote: Option<char>,
    doubling: bool,
    c: char,
) -> Result<(), AllocError>
    ensures { OnOk result (made.new ≡ made.old ++ piece quote doubling c) }
{
    match quote {
        None => Ok(()),
        Some(quote) => {
            if doubling || c != quote {
                made.push(c)
            } else {
                Ok(())
            }
        }
    }
}

fn next_quote(quote: Option<char>, c: char) -> Option<char>
    ensures { result ≡ next_quote quote c }
{
    match quote {
        None => Some(c),
        Some(quote) => Some(quote),
    }
}

fn next_doubling(quote: Option<char>, doubling: bool, c: char) -> bool
    ensures { result ≡ next_doubling quote doubling c }
{
    match quote {
        None => false,
        Some(quote) => !doubling && c == quote,
    }
}

/// The characters of a literal: without its quotes, and of two quotes inside one stays (XPath 2.0, A.2).
#[tactic(auto, using(crate::proofs::QuoteLemmas::quotes))]
pub fn unquoted(alloc: Global, literal: &str) -> Result<Text, AllocError>
    ensures { IfOk result (λ text. text ≡ unquoted (chars literal.now)) }
{
    let mut made = TextBuilder::new(alloc);
    let mut quote = None;
    let mut doubling = false;
    for c in literal.chars() {
        push_piece(&mut made, quote, doubling, c)?;
        doubling = next_doubling(quote, doubling, c);
        quote = next_quote(quote, c);
    }
    made.finish()
}
