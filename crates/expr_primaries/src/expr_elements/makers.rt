// Computed constructors.
ghost use Rattle.std.specs.Prelude.{◌≡◌, [], IfOk};
ghost use Rattle.expr_rules.specs.Known.{node_name_of};
ghost use Rattle.expr_rules.specs.declared.expr_meant.meant.Meant.TheVariants.{Expr as as_expr};
ghost use Rattle.expr_primaries.specs.ExprElements.Computed.{named_by, named_with, computed, fixed_name, fixed_with, constructed, pi_constructed, enclosing_by, enclosing};

use crate::expr_elements::direct::nothing;
use bound_prefixes::BoundPrefixes;
use expr_rules::expr_meant::{Meant, as_part, expr_in, expr_of, key_of};
use expr_rules::expr_names::no_text;
use expr_rules::node_name_of;
use expr_terms::Key;
use std::alloc::{AllocError, Global};
use xt_names::{Name, Shared, Text};
use xt_syntax::{Expr, NameSource};

#[tactic(auto, unfolding(crate::specs::ExprElements::Computed::named_by))]
fn named_by(key: Key, name: NameSource, content: Shared<Expr>) -> Expr
    ensures { result ≡ named_by key name content }
{
    match key {
        Key::ElementWord => Expr::ElemC(name, content),
        Key::AttributeWord => Expr::AttrC(name, content),
        _ => Expr::PiC(name, content),
    }
}

fn named_with(alloc: Global, key: Key, parts: &[Meant]) -> Result<Meant, AllocError>
    ensures { IfOk result (λ made. made ≡ as_expr (named_with key parts.now)) }
{
    match parts {
        [] => nothing(alloc),
        [name, rest @ ..] => {
            let name = expr_of(alloc, name)?;
            let content = expr_in(alloc, rest)?;
            as_part(alloc, named_by(key, NameSource::Computed(name), content))
        }
    }
}

/// `element { a } { b }`, or the same of an attribute or a processing instruction.
pub fn computed(alloc: Global, parts: &[Meant]) -> Result<Meant, AllocError>
    ensures { IfOk result (λ made. made ≡ as_expr (computed parts.now)) }
{
    match parts {
        [] => nothing(alloc),
        [word, rest @ ..] => named_with(alloc, key_of(word), rest),
    }
}

fn bare_name(alloc: Global, bound: &BoundPrefixes, part: &Meant) -> Result<Name, AllocError>
    ensures { IfOk result (λ name. name ≡ node_name_of bound.now [] part.now) }
{
    let none = no_text(alloc)?;
    node_name_of(alloc, bound, &none, part)
}

#[tactic(auto, unfolding(crate::specs::ExprElements::Computed::fixed_name))]
fn fixed_name(
    alloc: Global,
    bound: &BoundPrefixes,
    default: &Text,
    key: Key,
    part: &Meant,
) -> Result<Name, AllocError>
    ensures { IfOk result (λ name. name ≡ fixed_name bound.now default.now key part.now) }
{
    match key {
        Key::ElementWord => node_name_of(alloc, bound, default, part),
        _ => bare_name(alloc, bound, part),
    }
}

fn fixed_with(
    alloc: Global,
    bound: &BoundPrefixes,
    default: &Text,
    key: Key,
    parts: &[Meant],
) -> Result<Meant, AllocError>
    ensures { IfOk result (λ made. made ≡ as_expr (fixed_with bound.now default.now key parts.now)) }
{
    match parts {
        [] => nothing(alloc),
        [name, rest @ ..] => {
            let name = fixed_name(alloc, bound, default, key, name)?;
            let content = expr_in(alloc, rest)?;
            as_part(alloc, named_by(key, NameSource::Fixed(name), content))
        }
    }
}

/// `element n { a }`, or the same of an attribute.
pub fn constructed(
    alloc: Global,
    bound: &BoundPrefixes,
    default: &Text,
    parts: &[Meant],
) -> Result<Meant, AllocError>
    ensures { IfOk result (λ made. made ≡ as_expr (constructed bound.now default.now parts.now)) }
{
    match parts {
        [] => nothing(alloc),
        [word, rest @ ..] => fixed_with(alloc, bound, default, key_of(word), rest),
    }
}

/// `processing-instruction n { a }`.
pub fn pi_constructed(
    alloc: Global,
    bound: &BoundPrefixes,
    parts: &[Meant],
) -> Result<Meant, AllocError>
    ensures { IfOk result (λ made. made ≡ as_expr (pi_constructed bound.now parts.now)) }
{
    match parts {
        [] => nothing(alloc),
        [target, rest @ ..] => {
            let name = bare_name(alloc, bound, target)?;
            let content = expr_in(alloc, rest)?;
            as_part(alloc, Expr::PiC(NameSource::Fixed(name), content))
        }
    }
}

#[tactic(auto, unfolding(crate::specs::ExprElements::Computed::enclosing_by))]
fn enclosing_by(key: Key, a: Shared<Expr>) -> Expr
    ensures { result ≡ enclosing_by key a }
{
    match key {
        Key::DocumentWord => Expr::DocC(a),
        Key::TextWord => Expr::TextC(a),
        _ => Expr::CommentC(a),
    }
}

/// `document { a }`, `text { a }` or `comment { a }`.
pub fn enclosing(alloc: Global, parts: &[Meant]) -> Result<Meant, AllocError>
    ensures { IfOk result (λ made. made ≡ as_expr (enclosing parts.now)) }
{
    match parts {
        [] => nothing(alloc),
        [word, rest @ ..] => {
            let a = expr_in(alloc, rest)?;
            as_part(alloc, enclosing_by(key_of(word), a))
        }
    }
}
