// Operators that follow one another.
ghost use Rattle.std.specs.Prelude.{◌≡◌, [], IfOk};
ghost use Rattle.xt_syntax.specs.declared.exprs.Expr.TheVariants.{Comma, Or, And};
ghost use Rattle.expr_rules.specs.ExprMeant.Parts.{exprs_of};
ghost use Rattle.expr_rules.specs.declared.expr_meant.meant.Meant.TheVariants.{Expr as as_expr};
ghost use Rattle.expr_control.specs.Operators.{operated_by, of_type, joined, chain_from, left_chain, chained, tail, single_of, single_in, operated, signed};

use crate::operators::{of_single, of_type, operated_by, signed_by};
use crate::types::typed;
use bound_prefixes::BoundPrefixes;
use expr_rules::expr_meant::{Meant, as_part, expr_in, expr_of, exprs_of, key_of, no_items};
use expr_terms::{Key, Level};
use std::alloc::{AllocError, Global};
use xt_names::Shared;
use xt_syntax::Expr;
use xt_types::SeqType;

fn with_operand(
    alloc: Global,
    level: Level,
    key: Key,
    a: Shared<Expr>,
    b: &Shared<Expr>,
) -> Result<Shared<Expr>, AllocError>
    ensures { IfOk result (λ e. e ≡ operated_by level key a b.now) }
{
    match b.copy() {
        Err(e) => {
            drop(a);
            Err(e)
        }
        Ok(b) => Shared::make(alloc, operated_by(level, key, a, b)),
    }
}

fn with_type(
    alloc: Global,
    level: Level,
    a: Shared<Expr>,
    kind: &SeqType,
) -> Result<Shared<Expr>, AllocError>
    ensures { IfOk result (λ e. e ≡ of_type level a kind.now) }
{
    match kind.copy() {
        Err(e) => {
            drop(a);
            Err(e)
        }
        Ok(kind) => Shared::make(alloc, of_type(level, a, kind)),
    }
}

#[tactic(auto, unfolding(crate::specs::Operators::joined))]
fn joined(
    alloc: Global,
    level: Level,
    a: Shared<Expr>,
    part: &Meant,
) -> Result<Shared<Expr>, AllocError>
    ensures { IfOk result (λ e. e ≡ joined level a part.now) }
{
    match part {
        Meant::Tail(key, b) => with_operand(alloc, level, *key, a, b),
        Meant::Sequence(kind) => with_type(alloc, level, a, kind),
        Meant::Single(kind, empty) => Shared::make(alloc, of_single(level, a, *kind, *empty)),
        _ => Ok(a),
    }
}

fn chain_from(
    alloc: Global,
    level: Level,
    a: Shared<Expr>,
    parts: &[Meant],
) -> Result<Shared<Expr>, AllocError>
    ensures { IfOk result (λ e. e ≡ chain_from level a parts.now) }
{
    let mut chain = a;
    for part in parts {
        chain = joined(alloc, level, chain, part)?;
    }
    Ok(chain)
}

fn left_chain(alloc: Global, level: Level, parts: &[Meant]) -> Result<Shared<Expr>, AllocError>
    ensures { IfOk result (λ e. e ≡ left_chain level parts.now) }
{
    match parts {
        [] => no_items(alloc),
        [front, rest @ ..] => {
            let a = expr_of(alloc, front)?;
            chain_from(alloc, level, a, rest)
        }
    }
}

fn ors(alloc: Global, parts: &[Meant]) -> Result<Meant, AllocError>
    ensures { IfOk result (λ made. made ≡ as_expr (Or (exprs_of parts.now))) }
{
    let all = Shared::make(alloc, exprs_of(alloc, parts)?)?;
    as_part(alloc, Expr::Or(all))
}

fn ands(alloc: Global, parts: &[Meant]) -> Result<Meant, AllocError>
    ensures { IfOk result (λ made. made ≡ as_expr (And (exprs_of parts.now))) }
{
    let all = Shared::make(alloc, exprs_of(alloc, parts)?)?;
    as_part(alloc, Expr::And(all))
}

/// The operands with the operators of the level, which associate to the left.
#[tactic(auto, unfolding(crate::specs::Operators::chained))]
pub fn chained(alloc: Global, level: Level, parts: &[Meant]) -> Result<Meant, AllocError>
    ensures { IfOk result (λ made. made ≡ as_expr (chained level parts.now)) }
{
    match level {
        Level::Or => ors(alloc, parts),
        Level::And => ands(alloc, parts),
        _ => Ok(Meant::Expr(left_chain(alloc, level, parts)?)),
    }
}

fn nothing(alloc: Global) -> Result<Meant, AllocError>
    ensures { IfOk result (λ made. made ≡ as_expr (Comma [])) }
{
    Ok(Meant::Expr(no_items(alloc)?))
}

fn tail(alloc: Global, parts: &[Meant]) -> Result<Meant, AllocError>
    ensures { IfOk result (λ made. made ≡ tail parts.now) }
{
    match parts {
        [] => Ok(Meant::Mark),
        [operator, rest @ ..] => Ok(Meant::Tail(key_of(operator), expr_in(alloc, rest)?)),
    }
}

#[tactic(auto, unfolding(crate::specs::Operators::single_of))]
fn single_of(part: &Meant) -> Meant
    ensures { result ≡ single_of part.now }
{
    match part {
        Meant::Single(kind, empty) => Meant::Single(*kind, *empty),
        _ => Meant::Mark,
    }
}

fn single_in(parts: &[Meant]) -> Meant
    ensures { result ≡ single_in parts.now }
{
    match parts {
        [] => Meant::Mark,
        [part, ..] => single_of(part),
    }
}

/// An operator of the level with what is at its right.
#[tactic(auto, unfolding(crate::specs::Operators::operated))]
pub fn operated(
    alloc: Global,
    bound: &BoundPrefixes,
    level: Level,
    parts: &[Meant],
) -> Result<Meant, AllocError>
    ensures { IfOk result (λ made. made ≡ operated bound.now level parts.now) }
{
    match level {
        Level::InstanceOf => Ok(Meant::Sequence(typed(alloc, bound, parts)?)),
        Level::Treat => Ok(Meant::Sequence(typed(alloc, bound, parts)?)),
        Level::Castable => Ok(single_in(parts)),
        Level::Cast => Ok(single_in(parts)),
        _ => tail(alloc, parts),
    }
}

/// `+a` or `-a`.
pub fn signed(alloc: Global, parts: &[Meant]) -> Result<Meant, AllocError>
    ensures { IfOk result (λ made. made ≡ as_expr (signed parts.now)) }
{
    match parts {
        [] => nothing(alloc),
        [sign, rest @ ..] => {
            let a = expr_in(alloc, rest)?;
            as_part(alloc, signed_by(key_of(sign), a))
        }
    }
}
