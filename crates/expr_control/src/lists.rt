// Lists, conditionals and quantifiers.
ghost use Rattle.std.specs.Prelude.{◌≡◌, ◌++◌, ◌∷◌, [], IfOk};
ghost use Rattle.expr_rules.specs.declared.expr_meant.meant.Meant.TheVariants.{Expr as as_expr};
ghost use Rattle.expr_control.specs.Lists.{listed, arm, arms_of, other_of, conditional, is_every, is_every_first, bind_and, binds_of, quantified};

use expr_rules::expr_meant::{Meant, as_part, expr_in, expr_of, exprs_of, key_of, no_items};
use expr_terms::Key;
use std::alloc::{AllocError, Global};
use xt_names::{List, Shared};
use xt_syntax::{Arm, Bind, Expr};

/// `a, b, ..`.
pub fn listed(alloc: Global, parts: &[Meant]) -> Result<Meant, AllocError>
    ensures { IfOk result (λ made. made ≡ as_expr (listed parts.now)) }
{
    let all = Shared::make(alloc, exprs_of(alloc, parts)?)?;
    as_part(alloc, Expr::Comma(all))
}

fn arm(alloc: Global, test: &Meant, first: &Meant) -> Result<Arm, AllocError>
    ensures { IfOk result (λ made. made ≡ arm test.now first.now) }
{
    Ok(Arm {
        test: expr_of(alloc, test)?,
        then: expr_of(alloc, first)?,
    })
}

fn arms_of(alloc: Global, parts: &[Meant]) -> Result<Vec<Arm>, AllocError>
    ensures { IfOk result (λ arms. arms.items ≡ arms_of parts.now) }
{
    let mut arms = Vec::new(alloc);
    let mut left = parts;
    while let [test, first, rest @ ..] = left {
        arms.push(arm(alloc, test, first)?)?;
        left = rest;
    }
    Ok(arms)
}

fn other_of(alloc: Global, parts: &[Meant]) -> Result<Shared<Expr>, AllocError>
    ensures { IfOk result (λ e. e ≡ other_of parts.now) }
{
    let mut left = parts;
    while let [_, _, rest @ ..] = left {
        left = rest;
    }
    match left {
        [] => no_items(alloc),
        [last, ..] => expr_of(alloc, last),
    }
}

/// `if (a) then b else if (c) then d .. else e`, of which the parts come in this order.
pub fn conditional(alloc: Global, parts: &[Meant]) -> Result<Meant, AllocError>
    ensures { IfOk result (λ made. made ≡ as_expr (conditional parts.now)) }
{
    let arms = Shared::make(alloc, List::of_vec(arms_of(alloc, parts)?))?;
    let other = other_of(alloc, parts)?;
    as_part(alloc, Expr::If(arms, other))
}

#[tactic(auto, unfolding(crate::specs::Lists::is_every))]
fn is_every(key: Key) -> bool
    ensures { result ≡ is_every key }
{
    match key {
        Key::EveryWord => true,
        _ => false,
    }
}

fn is_every_first(parts: &[Meant]) -> bool
    ensures { result ≡ is_every_first parts.now }
{
    match parts {
        [] => false,
        [word, ..] => is_every(key_of(word)),
    }
}

#[tactic(auto, unfolding(crate::specs::Lists::bind_and))]
fn push_bind(binds: Vec<Bind>, part: &Meant) -> Result<Vec<Bind>, AllocError>
    ensures { IfOk result (λ more. more.items ≡ binds.items ++ bind_and part.now []) }
{
    let mut binds = binds;
    if let Meant::Bind(bind) = part {
        binds.push(bind.copy()?)?;
    }
    Ok(binds)
}

fn binds_of(alloc: Global, parts: &[Meant]) -> Result<Vec<Bind>, AllocError>
    ensures { IfOk result (λ binds. binds.items ≡ binds_of parts.now) }
{
    let mut binds = Vec::new(alloc);
    for part in parts {
        binds = push_bind(binds, part)?;
    }
    Ok(binds)
}

/// `some $v in a satisfies b`, or the same with `every`.
pub fn quantified(alloc: Global, parts: &[Meant]) -> Result<Meant, AllocError>
    ensures { IfOk result (λ made. made ≡ as_expr (quantified parts.now)) }
{
    let binds = Shared::make(alloc, List::of_vec(binds_of(alloc, parts)?))?;
    let test = expr_in(alloc, parts)?;
    as_part(alloc, Expr::Quant(is_every_first(parts), binds, test))
}
