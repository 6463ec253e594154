// Variables of `for`, `let`, `some` and `every`.
ghost use Rattle.std.specs.Prelude.{◌≡◌, [], IfOk};
ghost use Rattle.expr_rules.specs.Known.{name_of};
ghost use Rattle.expr_control.specs.Bindings.{kind_in, kind_or, place_in, place_or, bind_of, for_bind, let_bind, quant_bind, placed};

use bound_prefixes::BoundPrefixes;
use expr_rules::expr_meant::{Meant, expr_in};
use expr_rules::expr_names::no_text;
use expr_rules::name_of;
use std::alloc::{AllocError, Global};
use xt_names::ExprName;
use xt_syntax::{Bind, Clause};
use xt_types::SeqType;

#[tactic(auto, unfolding(crate::specs::Bindings::kind_or))]
fn kind_in(parts: &[Meant]) -> Result<Option<SeqType>, AllocError>
    ensures { IfOk result (λ kind. kind ≡ kind_in parts.now) }
{
    for part in parts {
        if let Meant::Sequence(kind) = part {
            return Ok(Some(kind.copy()?));
        }
    }
    Ok(None)
}

#[tactic(auto, unfolding(crate::specs::Bindings::place_or))]
fn place_in(parts: &[Meant]) -> Result<Option<ExprName>, AllocError>
    ensures { IfOk result (λ name. name ≡ place_in parts.now) }
{
    for part in parts {
        if let Meant::Place(name) = part {
            return Ok(Some(name.copy()?));
        }
    }
    Ok(None)
}

fn bare_name(alloc: Global, bound: &BoundPrefixes, part: &Meant) -> Result<ExprName, AllocError>
    ensures { IfOk result (λ name. name ≡ name_of bound.now [] part.now) }
{
    let none = no_text(alloc)?;
    name_of(alloc, bound, &none, part)
}

fn bind_of(
    alloc: Global,
    bound: &BoundPrefixes,
    name: &Meant,
    rest: &[Meant],
) -> Result<Bind, AllocError>
    ensures { IfOk result (λ bind. bind ≡ bind_of bound.now name.now rest.now) }
{
    Ok(Bind {
        var: bare_name(alloc, bound, name)?,
        kind: kind_in(rest)?,
        source: expr_in(alloc, rest)?,
    })
}

/// `$v as T at $p in a`.
pub fn for_bind(alloc: Global, bound: &BoundPrefixes, parts: &[Meant]) -> Result<Meant, AllocError>
    ensures { IfOk result (λ made. made ≡ for_bind bound.now parts.now) }
{
    match parts {
        [] => Ok(Meant::Mark),
        [name, rest @ ..] => {
            let place = place_in(rest)?;
            let bind = bind_of(alloc, bound, name, rest)?;
            Ok(Meant::Clause(Clause::For(bind, place)))
        }
    }
}

/// `$v as T := a`.
pub fn let_bind(alloc: Global, bound: &BoundPrefixes, parts: &[Meant]) -> Result<Meant, AllocError>
    ensures { IfOk result (λ made. made ≡ let_bind bound.now parts.now) }
{
    match parts {
        [] => Ok(Meant::Mark),
        [name, rest @ ..] => {
            let bind = bind_of(alloc, bound, name, rest)?;
            Ok(Meant::Clause(Clause::Let(bind)))
        }
    }
}

/// `$v as T in a`, behind `some` or `every`.
pub fn quant_bind(
    alloc: Global,
    bound: &BoundPrefixes,
    parts: &[Meant],
) -> Result<Meant, AllocError>
    ensures { IfOk result (λ made. made ≡ quant_bind bound.now parts.now) }
{
    match parts {
        [] => Ok(Meant::Mark),
        [name, rest @ ..] => {
            let bind = bind_of(alloc, bound, name, rest)?;
            Ok(Meant::Bind(bind))
        }
    }
}

/// `at $p`.
pub fn placed(alloc: Global, bound: &BoundPrefixes, parts: &[Meant]) -> Result<Meant, AllocError>
    ensures { IfOk result (λ made. made ≡ placed bound.now parts.now) }
{
    match parts {
        [] => Ok(Meant::Mark),
        [name, ..] => Ok(Meant::Place(bare_name(alloc, bound, name)?)),
    }
}
