// Priorities.
ghost use Rattle.std.specs.Prelude.{◌≡◌, ◌≤◌, ◌<◌, length, true, pos, ◌-ℤ◌};
ghost use Rattle.xt_names.specs.Allowed.{is_empty_text};
ghost use Rattle.expr_names.specs.Answers.{Answers};
ghost use Rattle.sheet_values.specs.Priorities.{is_digit, are_digits, has_digits, number, point_place, whole_of, fraction_of, is_taken, is_decimal, thousandths, all_thousandths, is_negative, without_minus, without_sign, signed, refused, priority_faults, priority_value};
ghost use Rattle.xt_names.specs.Characters.{digit};

use crate::characters::chars_of;
use crate::faults::sheet_fault;
use expr_names::ResolveFault;
use std::alloc::Global;
use xt_names::{SheetStaticCode, Text};

fn is_digit(c: char) -> bool
    ensures { result ≡ is_digit c }
{
    '0' <= c && c <= '9'
}

fn digit(c: char) -> u64
    ensures value { result ≡ digit c }
    ensures small { result ≤ 4294967295 }
{
    u64::from(u32::from(c)).saturating_sub(48)
}

fn are_digits(text: &[char]) -> bool
    ensures { result ≡ are_digits text.now }
{
    text.iter().all(|c| is_digit(*c))
}

#[tactic(auto, unfolding(xt_names::specs::Allowed::is_empty_text))]
fn is_empty(text: &[char]) -> bool
    ensures { result ≡ is_empty_text text.now }
{
    match text {
        [] => true,
        [_, ..] => false,
    }
}

fn has_digits(most: usize, text: &[char]) -> bool
    ensures { result ≡ has_digits most text.now }
{
    !is_empty(text) && text.len() <= most && are_digits(text)
}

/// The number that at most nine digits write.
#[tactic(auto, using(crate::proofs::NumberLemmas::numbers))]
fn number(digits: &[char]) -> u64
    requires digits { are_digits digits.now ≡ true }
    requires few { length digits.now ≤ 9 }
    ensures value { result ≡ number 0 digits.now }
    ensures small { result < 1000000000 }
{
    let mut made: u64 = 0;
    let mut left = digits;
    while let [c, rest @ ..] = left {
        made = 10 * made + digit(*c);
        left = rest;
    }
    made
}

fn point_place(text: &[char]) -> usize
    ensures value { result ≡ point_place text.now }
    ensures within { result ≤ length text.now }
{
    let mut place: usize = 0;
    let mut left = text;
    while let [c, rest @ ..] = left {
        if *c == '.' {
            return place;
        }
        place += 1;
        left = rest;
    }
    place
}

fn whole_of(text: &[char]) -> &[char]
    ensures { result.now ≡ whole_of text.now }
{
    &text[..point_place(text)]
}

fn fraction_of(text: &[char]) -> &[char]
    ensures { result.now ≡ fraction_of text.now }
{
    let place = point_place(text);
    if place < text.len() {
        &text[place + 1..]
    } else {
        &text[place..]
    }
}

fn is_taken(text: &[char]) -> bool
    ensures { result ≡ is_taken text.now }
{
    has_digits(9, whole_of(text))
        && (!(point_place(text) < text.len()) || has_digits(3, fraction_of(text)))
}

fn is_decimal(text: &[char]) -> bool
    ensures { result ≡ is_decimal text.now }
{
    let whole = whole_of(text);
    let fraction = fraction_of(text);
    are_digits(whole) && are_digits(fraction) && !(is_empty(whole) && is_empty(fraction))
}

fn thousandths(fraction: &[char]) -> u64
    ensures value { result ≡ thousandths fraction.now }
    ensures small { result ≤ 500000000000 }
{
    match fraction {
        [] => 0,
        [a] => 100 * digit(*a),
        [a, b] => 100 * digit(*a) + 10 * digit(*b),
        [a, b, c, ..] => 100 * digit(*a) + 10 * digit(*b) + digit(*c),
    }
}

#[tactic(auto, using(crate::proofs::NumberLemmas::taken))]
fn all_thousandths(text: &[char]) -> u64
    requires { is_taken text.now ≡ true }
    ensures value { result ≡ all_thousandths text.now }
    ensures small { result ≤ 1500000000000 }
{
    1000 * number(whole_of(text)) + thousandths(fraction_of(text))
}

fn minus(all: u64) -> i64
    requires { all ≤ 1500000000000 }
    ensures { result ≡ pos 0 -ℤ pos all }
{
    0 - (all as i64)
}

fn signed(negative: bool, all: u64) -> i64
    requires { all ≤ 1500000000000 }
    ensures { result ≡ signed negative all }
{
    if negative { minus(all) } else { all as i64 }
}

fn is_negative(text: &[char]) -> bool
    ensures { result ≡ is_negative text.now }
{
    match text {
        [c, ..] => *c == '-',
        [] => false,
    }
}

fn without_minus(text: &[char]) -> &[char]
    ensures { result.now ≡ without_minus text.now }
{
    match text {
        [c, rest @ ..] if *c == '-' => rest,
        _ => text,
    }
}

fn without_sign(text: &[char]) -> &[char]
    ensures { result.now ≡ without_sign text.now }
{
    match text {
        [c, rest @ ..] if *c == '-' || *c == '+' => rest,
        _ => text,
    }
}

fn refusal(text: &[char]) -> Result<i64, ResolveFault>
    ensures { Answers result (refused text.now) (priority_value text.now) }
{
    if is_decimal(without_sign(text)) {
        Err(sheet_fault(SheetStaticCode::XTUN0001))
    } else {
        Err(sheet_fault(SheetStaticCode::XTSE0020))
    }
}

fn read(text: &[char]) -> Result<i64, ResolveFault>
    ensures { Answers result (priority_faults text.now) (priority_value text.now) }
{
    let body = without_minus(text);
    if !is_taken(body) {
        return refusal(text);
    }
    let all = all_thousandths(body);
    Ok(signed(is_negative(text), all))
}

/// The priority in thousandths (XSLT 2.0, 6.4): an optional minus, one to nine digits, and after
/// a point one to three. XTUN0001 where the text is another decimal, and XTSE0020 where it is none.
pub fn priority(alloc: Global, text: &Text) -> Result<i64, ResolveFault>
    ensures { Answers result (priority_faults text.now) (priority_value text.now) }
{
    let all = chars_of(alloc, text.as_str())?;
    read(all.as_slice())
}
