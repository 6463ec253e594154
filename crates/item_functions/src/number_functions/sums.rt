// Sums and absolute values.
ghost use Rattle.std.specs.Prelude.{◌≡◌};
ghost use Rattle.xt_atoms.specs.Arithmetic.{ranged};
ghost use Rattle.xt_atoms.specs.Casts.{spelled_value};
ghost use Rattle.xt_atoms.specs.Lexical.{integer_of};
ghost use Rattle.item_functions.specs.NumberFunctions.Sums.{absolute, sum_of, summand, total};

use xdm_items::Item;
use xt_atoms::{Atom, integer_of};
use xt_names::{Code, DynamicCode, Text};

/// The values are of no kind that has such a value.
pub(crate) const WRONG_KIND: Code = Code::Dynamic(DynamicCode::FORG0006);

/// The text spells no integer.
const NO_VALUE: Code = Code::Dynamic(DynamicCode::FORG0001);

const OUT_OF_RANGE: Code = Code::Dynamic(DynamicCode::FOAR0002);

/// The sum (`fn:sum`, Functions and Operators, 15.4.5), 0 of no item. An untyped atom is cast to
/// an integer, FORG0001 where it has no such cast; other kinds are FORG0006, and the first such
/// item decides. FOAR0002 comes where the sum, which itself has no limit, is no integer of 64
/// bits.
#[tactic(auto, unfolding(crate::specs::NumberFunctions::Sums::sum_of))]
pub fn sum(items: &[Item]) -> Result<i64, Code>
    ensures { result ≡ sum_of items.now }
{
    let total = total(items)?;
    ranged(total)
}

fn ranged(total: i128) -> Result<i64, Code>
    ensures { result ≡ ranged total }
{
    match i64::try_from(total) {
        Ok(number) => Ok(number),
        Err(_) => Err(OUT_OF_RANGE),
    }
}

fn total(items: &[Item]) -> Result<i128, Code>
    ensures { result ≡ total items.now }
{
    let mut total: i128 = 0;
    for item in items {
        let number = summand(item)?;
        total += i128::from(number);
    }
    Ok(total)
}

#[tactic(auto, unfolding(crate::specs::NumberFunctions::Sums::summand))]
fn summand(item: &Item) -> Result<i64, Code>
    ensures { result ≡ summand item.now }
{
    match item {
        Item::Atom(Atom::Int(number)) => Ok(*number),
        Item::Atom(Atom::Untyped(text)) => spelled_integer(text),
        _ => Err(WRONG_KIND),
    }
}

/// The integer that an untyped atom spells, or FORG0001.
pub(crate) fn spelled_integer(text: &Text) -> Result<i64, Code>
    ensures { result ≡ spelled_value (integer_of text.now) }
{
    match integer_of(text.as_str()) {
        Some(number) => Ok(number),
        None => Err(NO_VALUE),
    }
}

/// The absolute value (`fn:abs`, Functions and Operators, 6.4.1); FOAR0002 of the least integer,
/// which has none.
#[tactic(auto, unfolding(crate::specs::NumberFunctions::Sums::absolute))]
pub fn abs(number: i64) -> Result<i64, Code>
    ensures { result ≡ absolute number }
{
    number.checked_abs().ok_or(OUT_OF_RANGE)
}
