// Arithmetic on integers.
ghost use Rattle.std.specs.Prelude.{◌≡◌};
ghost use Rattle.xt_atoms.specs.Arithmetic.{integer_operand, quotient, remainder, computed, arithmetic};

use crate::atoms::Atom;
use crate::casts::{WRONG_TYPE, is_zero, spelled_integer};
use xt_names::{ArithOp, Code, DynamicCode};

const DIVISION_BY_ZERO: Code = Code::Dynamic(DynamicCode::FOAR0001);

const OUT_OF_RANGE: Code = Code::Dynamic(DynamicCode::FOAR0002);

/// Computes with two integers (XPath 2.0, 3.4). An untyped operand is cast to xs:integer, FORG0001 where it has no such
/// cast; other kinds are XPTY0004. A division by zero is FOAR0001, and a result that 64 bits do not hold FOAR0002. The
/// first operand is settled before the second.
#[tactic(auto, unfolding(crate::specs::Arithmetic::arithmetic))]
pub fn arith(op: ArithOp, a: &Atom, b: &Atom) -> Result<i64, Code>
    ensures { result ≡ arithmetic op a.now b.now }
{
    let first = integer_operand(a)?;
    let second = integer_operand(b)?;
    computed(op, first, second)
}

/// The integer that an operand of an operation on integers stands for.
#[tactic(auto, unfolding(crate::specs::Arithmetic::integer_operand))]
pub fn integer_operand(a: &Atom) -> Result<i64, Code>
    ensures { result ≡ integer_operand a.now }
{
    match a {
        Atom::Int(number) => Ok(*number),
        Atom::Untyped(text) => spelled_integer(text),
        Atom::Str(_) | Atom::Bool(_) | Atom::QName(_) => Err(WRONG_TYPE),
    }
}

#[tactic(auto, unfolding(crate::specs::Arithmetic::computed))]
fn computed(op: ArithOp, a: i64, b: i64) -> Result<i64, Code>
    ensures { result ≡ computed op a b }
{
    match op {
        ArithOp::Add => a.checked_add(b).ok_or(OUT_OF_RANGE),
        ArithOp::Sub => a.checked_sub(b).ok_or(OUT_OF_RANGE),
        ArithOp::Mul => a.checked_mul(b).ok_or(OUT_OF_RANGE),
        ArithOp::Idiv => quotient(a, b),
        ArithOp::Mod => remainder(a, b),
    }
}

fn quotient(a: i64, b: i64) -> Result<i64, Code>
    ensures { result ≡ quotient a b }
{
    if is_zero(b) {
        return Err(DIVISION_BY_ZERO);
    }
    a.checked_div(b).ok_or(OUT_OF_RANGE)
}

fn remainder(a: i64, b: i64) -> Result<i64, Code>
    ensures { result ≡ remainder a b }
{
    if is_zero(b) {
        return Err(DIVISION_BY_ZERO);
    }
    Ok(a.wrapping_rem(b))
}
