// What was read, by its productions.
ghost use Rattle.std.specs.Prelude.{◌≡◌, ◌++◌, ◌∷◌, [], IfOk, is_some};
ghost use Rattle.expr_terms.specs.declared.raws.Raw.TheViews.{out-Raw};
ghost use Rattle.expr_terms.specs.Productions.{if_expr};
ghost use Rattle.expr_terms.specs.Raws.{is_parens, is_otherwise, is_conditional, as_parens, as_chain, only_chain, as_inner_chain, only_parens, only_inner, as_else, as_last, as_parts, in_chain, build_parens, build_else, build_chain, build_plain, build, node};

use crate::bodies::passes;
use expr_keys::{Production, Token};
use std::alloc::{AllocError, Global};
use xt_names::List;

/// What was read: fixed words and marks are gone, and a production that adds nothing to its only
/// part is that part.
#[derive(Drop)]
#[cycle(raw)]
pub enum Raw {
    /// A token that tells more than its production does.
    Leaf(Token),
    /// A production with its parts.
    Node(Production, List<Raw>),
}

fn is_parens(production: Production) -> bool
    ensures { result ≡ is_parens production }
{
    match production {
        Production::Parens => true,
        _ => false,
    }
}

fn is_otherwise(production: Production) -> bool
    ensures { result ≡ is_otherwise production }
{
    match production {
        Production::ElseExpr => true,
        _ => false,
    }
}

fn is_conditional(production: Production) -> bool
    ensures { result ≡ is_conditional production }
{
    match production {
        Production::IfExpr => true,
        _ => false,
    }
}

fn as_parens(value: &Raw) -> bool
    ensures { result ≡ as_parens (out-Raw value.now) }
{
    match value {
        Raw::Leaf(_) => false,
        Raw::Node(production, _) => is_parens(*production),
    }
}

/// Whether the value is a conditional.
fn is_chain(value: &Raw) -> bool
    ensures { result ≡ is_some (as_chain (out-Raw value.now)) }
{
    match value {
        Raw::Leaf(_) => false,
        Raw::Node(production, _) => is_conditional(*production),
    }
}

/// Whether the only one of the parts is a conditional.
fn is_only_chain(parts: &[Raw]) -> bool
    ensures { result ≡ is_some (only_chain parts.now) }
{
    match parts {
        [] => false,
        [only] => is_chain(only),
        [_, ..] => false,
    }
}

/// Whether the value is a conditional, in parentheses or not.
fn is_inner_chain(value: &Raw) -> bool
    ensures { result ≡ is_some (as_inner_chain (out-Raw value.now)) }
{
    match value {
        Raw::Leaf(_) => false,
        Raw::Node(production, parts) => {
            if is_conditional(*production) {
                true
            } else if is_parens(*production) {
                is_only_chain(parts.as_slice())
            } else {
                false
            }
        }
    }
}

/// The parts of a conditional.
fn chain(value: Raw) -> Option<List<Raw>>
    ensures { result ≡ as_chain (out-Raw value) }
{
    match value {
        Raw::Leaf(_) => None,
        Raw::Node(production, parts) => {
            if is_conditional(production) {
                Some(parts)
            } else {
                None
            }
        }
    }
}

/// The parts of the conditional that is the only one of the values.
#[tactic(auto, using(crate::proofs::BuildLemmas::builds))]
fn only_chain(parts: Vec<Raw>) -> Option<List<Raw>>
    ensures { result ≡ only_chain parts.items }
{
    let mut parts = parts;
    if parts.len() != 1 {
        return None;
    }
    match parts.pop() {
        None => None,
        Some(value) => chain(value),
    }
}

/// The parts of a conditional, in parentheses or not.
fn inner_chain(value: Raw) -> Option<List<Raw>>
    ensures { result ≡ as_inner_chain (out-Raw value) }
{
    match value {
        Raw::Leaf(_) => None,
        Raw::Node(production, parts) => {
            if is_conditional(production) {
                Some(parts)
            } else if is_parens(production) {
                only_chain(parts.into_vec())
            } else {
                None
            }
        }
    }
}

/// Whether the only one of the parts is in parentheses.
fn is_only_parens(parts: &[Raw]) -> bool
    ensures { result ≡ only_parens parts.now }
{
    match parts {
        [] => false,
        [only] => as_parens(only),
        [_, ..] => false,
    }
}

/// Whether the only one of the parts is a conditional, in parentheses or not.
fn is_only_inner(parts: &[Raw]) -> bool
    ensures { result ≡ only_inner parts.now }
{
    match parts {
        [] => false,
        [only] => is_inner_chain(only),
        [_, ..] => false,
    }
}

#[tactic(auto, using(crate::proofs::BuildLemmas::builds))]
fn build_parens(parts: Vec<Raw>) -> Raw
    ensures { result ≡ build_parens parts.items }
{
    let mut parts = parts;
    if is_only_parens(parts.as_slice()) {
        if let Some(value) = parts.pop() {
            return value;
        }
    }
    Raw::Node(Production::Parens, List::of_vec(parts))
}

#[tactic(auto, using(crate::proofs::BuildLemmas::builds))]
fn build_else(parts: Vec<Raw>) -> Raw
    ensures { result ≡ build_else parts.items }
{
    let mut parts = parts;
    if is_only_inner(parts.as_slice()) {
        if let Some(value) = parts.pop() {
            if let Some(arms) = inner_chain(value) {
                return Raw::Node(Production::ElseExpr, arms);
            }
        }
    }
    Raw::Node(Production::ElseExpr, List::of_vec(parts))
}

fn as_last(value: &Raw) -> bool
    ensures { result ≡ as_last (out-Raw value.now) }
{
    match value {
        Raw::Leaf(_) => false,
        Raw::Node(production, _) => is_otherwise(*production),
    }
}

fn parts_of(alloc: Global, value: Raw) -> Vec<Raw>
    ensures { result.items ≡ as_parts (out-Raw value) }
{
    match value {
        Raw::Leaf(_) => Vec::new(alloc),
        Raw::Node(_, parts) => parts.into_vec(),
    }
}

/// The parts of the last part of a conditional.
#[tactic(auto, using(crate::proofs::BuildLemmas::lasts))]
fn as_else(alloc: Global, value: Raw) -> Result<Vec<Raw>, AllocError>
    ensures { IfOk result (λ parts. parts.items ≡ as_else value (out-Raw value)) }
{
    if as_last(&value) {
        Ok(parts_of(alloc, value))
    } else {
        pushed(Vec::new(alloc), value)
    }
}

fn pushed(parts: Vec<Raw>, part: Raw) -> Result<Vec<Raw>, AllocError>
    ensures { IfOk result (λ more. more.items ≡ parts.items ++ part ∷ []) }
{
    let mut parts = parts;
    parts.push(part)?;
    Ok(parts)
}

fn in_chain(alloc: Global, test: Raw, arm: Raw, last: Raw) -> Result<Raw, AllocError>
    ensures { IfOk result (λ value. value ≡ in_chain test arm last) }
{
    let arms = as_else(alloc, last)?;
    let arms = pushed(arms, arm)?;
    let arms = pushed(arms, test)?;
    Ok(Raw::Node(Production::IfExpr, List::of_vec(arms)))
}

fn as_conditional(parts: Vec<Raw>) -> Raw
    ensures { result ≡ node if_expr parts.items }
{
    Raw::Node(Production::IfExpr, List::of_vec(parts))
}

#[tactic(auto, using(crate::proofs::BuildLemmas::builds))]
fn build_chain(parts: Vec<Raw>) -> Result<Raw, AllocError>
    ensures { IfOk result (λ value. value ≡ build_chain parts.items) }
{
    let mut parts = parts;
    if parts.len() != 3 {
        return Ok(as_conditional(parts));
    }
    let alloc = *parts.allocator();
    match parts.pop() {
        None => Ok(as_conditional(parts)),
        Some(last) => match parts.pop() {
            None => Ok(as_conditional(parts)),
            Some(arm) => match parts.pop() {
                None => Ok(as_conditional(parts)),
                Some(test) => in_chain(alloc, test, arm, last),
            },
        },
    }
}

#[tactic(auto, using(crate::proofs::BuildLemmas::builds))]
fn build_plain(production: Production, parts: Vec<Raw>) -> Raw
    ensures { result ≡ build_plain production parts.items }
{
    let mut parts = parts;
    if passes(production) && parts.len() == 1 {
        if let Some(part) = parts.pop() {
            return part;
        }
    }
    Raw::Node(production, List::of_vec(parts))
}

/// The value of a production, from those of its parts.
pub fn build(production: Production, parts: Vec<Raw>) -> Result<Raw, AllocError>
    ensures { IfOk result (λ value. value ≡ build production parts.items) }
{
    if is_parens(production) {
        Ok(build_parens(parts))
    } else if is_otherwise(production) {
        Ok(build_else(parts))
    } else if is_conditional(production) {
        build_chain(parts)
    } else {
        Ok(build_plain(production, parts))
    }
}
