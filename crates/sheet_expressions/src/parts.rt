// The parts of calls.
ghost use Rattle.std.specs.Prelude.{◌≡◌, option_map, IfOk, List as Items};
ghost use Rattle.xt_names.specs.declared.codes.Code.{Code};
ghost use Rattle.xt_names.specs.declared.names.ExprName.{ExprName as AnyName};
ghost use Rattle.expr_names.specs.Answers.{Answers};
ghost use Rattle.expr_terms.specs.declared.raws.Raw.TheViews.{out-Raw};
ghost use Rattle.expr_terms.specs.declared.raws.Raw.TheVariants.{Node as node};
ghost use Rattle.sheet_expressions.specs.Parts.{no_name, name_unless, name_written};
ghost use Rattle.sheet_expressions.specs.Parts.{name_in, called_name, argued_of, argued_in};
ghost use Rattle.sheet_expressions.specs.Parts.{arity_of, call_asks, quoted_in, quoted_leaf};
ghost use Rattle.sheet_expressions.specs.Parts.{first_quoted, literal_of, literal_in, as_literal};
ghost use Rattle.sheet_expressions.specs.Parts.{key_literal, first_key, on_first, on_last};
ghost use Rattle.sheet_expressions.specs.Parts.{key_arguments, key_call};

use crate::calls::{SheetCall, sheet_call};
use crate::keys::key_text;
use bound_prefixes::BoundPrefixes;
use expr_names::{ResolveFault, Written, expr_name, no_text};
use expr_terms::{Production, Raw, Token};
use sheet_values::expr_rules::expr_meant::written_in;
use std::alloc::{AllocError, Global};
use xt_names::{ExprName, List, Text};
use xt_syntax::Prefixes;

fn no_name(alloc: Global) -> Result<ExprName, AllocError>
    ensures { IfOk result (λ name. name ≡ no_name) }
{
    Ok(ExprName {
        uri: no_text(alloc)?,
        local: no_text(alloc)?,
    })
}

/// The name, where its prefix is declared.
#[tactic(auto, unfolding(crate::specs::Parts::name_unless))]
fn name_unless(alloc: Global, found: Result<ExprName, ResolveFault>) -> Result<ExprName, AllocError>
    ensures { IfOk result (λ name. (faults : Items Code) (n : AnyName)
        → Answers found faults n → name ≡ name_unless faults n) }
{
    match found {
        Ok(name) => Ok(name),
        Err(ResolveFault::Static(_)) => no_name(alloc),
        Err(ResolveFault::Memory(e)) => Err(e),
    }
}

fn name_written(
    alloc: Global,
    prefixes: &Prefixes,
    written: &Written,
) -> Result<ExprName, AllocError>
    ensures { IfOk result (λ name. name ≡ name_written prefixes.now written.now) }
{
    let bound = &prefixes.bound;
    let found = expr_name(alloc, bound, &prefixes.function_default, written);
    name_unless(alloc, found)
}

fn name_in(alloc: Global, prefixes: &Prefixes, part: &Raw) -> Result<ExprName, AllocError>
    ensures { IfOk result (λ name. name ≡ name_in prefixes.now (out-Raw part.now)) }
{
    match part {
        Raw::Leaf(token) => {
            let written = written_in(alloc, token)?;
            name_written(alloc, prefixes, &written)
        }
        Raw::Node(_, _) => no_name(alloc),
    }
}

fn called_name(alloc: Global, prefixes: &Prefixes, parts: &[Raw]) -> Result<ExprName, AllocError>
    ensures { IfOk result (λ name. name ≡ called_name prefixes.now parts.now) }
{
    match parts {
        [] => no_name(alloc),
        [name, ..] => name_in(alloc, prefixes, name),
    }
}

#[tactic(auto, unfolding(crate::specs::Parts::argued_of))]
fn argued_of(production: Production, parts: &[Raw]) -> usize
    ensures { result ≡ argued_of production parts.now }
{
    match production {
        Production::ArgumentList => parts.len(),
        _ => 0,
    }
}

fn argued_in(part: &Raw) -> usize
    ensures { result ≡ argued_in (out-Raw part.now) }
{
    match part {
        Raw::Leaf(_) => 0,
        Raw::Node(production, parts) => argued_of(*production, parts.as_slice()),
    }
}

/// How many arguments the call that has these parts has.
fn arity_of(parts: &[Raw]) -> usize
    ensures { result ≡ arity_of parts.now }
{
    match parts {
        [] => 0,
        [_] => 0,
        [_, part, ..] => argued_in(part),
    }
}

/// What a stylesheet asks of the call that has these parts.
pub(crate) fn call_asks(
    alloc: Global,
    prefixes: &Prefixes,
    parts: &[Raw],
) -> Result<SheetCall, AllocError>
    ensures { IfOk result (λ asked. asked ≡ call_asks prefixes.now parts.now) }
{
    let name = called_name(alloc, prefixes, parts)?;
    Ok(sheet_call(&name, arity_of(parts)))
}

#[tactic(auto, unfolding(crate::specs::Parts::quoted_in))]
fn quoted_in(token: &Token) -> Result<Option<Text>, AllocError>
    ensures { IfOk result (λ text. text ≡ quoted_in token.now) }
{
    match token {
        Token::Quoted(text) => Ok(Some(text.copy()?)),
        _ => Ok(None),
    }
}

fn quoted_leaf(part: &Raw) -> Result<Option<Text>, AllocError>
    ensures { IfOk result (λ text. text ≡ quoted_leaf (out-Raw part.now)) }
{
    match part {
        Raw::Leaf(token) => quoted_in(token),
        Raw::Node(_, _) => Ok(None),
    }
}

fn first_quoted(parts: &[Raw]) -> Result<Option<Text>, AllocError>
    ensures { IfOk result (λ text. text ≡ first_quoted parts.now) }
{
    match parts {
        [] => Ok(None),
        [part, ..] => quoted_leaf(part),
    }
}

#[tactic(auto, unfolding(crate::specs::Parts::literal_of))]
fn literal_of(production: Production, parts: &[Raw]) -> Result<Option<Text>, AllocError>
    ensures { IfOk result (λ text. text ≡ literal_of production parts.now) }
{
    match production {
        Production::Literal => first_quoted(parts),
        _ => Ok(None),
    }
}

fn literal_in(part: &Raw) -> Result<Option<Text>, AllocError>
    ensures { IfOk result (λ text. text ≡ literal_in (out-Raw part.now)) }
{
    match part {
        Raw::Leaf(_) => Ok(None),
        Raw::Node(production, parts) => literal_of(*production, parts.as_slice()),
    }
}

fn as_literal(alloc: Global, text: Text) -> Result<Raw, AllocError>
    ensures { IfOk result (λ raw. raw ≡ as_literal text) }
{
    let mut parts = List::new(alloc);
    parts.push(Raw::Leaf(Token::Quoted(text)))?;
    Ok(Raw::Node(Production::Literal, parts))
}

/// The literal with the name of the key that it writes; None where the part is no literal.
fn key_literal(alloc: Global, bound: &BoundPrefixes, part: &Raw) -> Result<Option<Raw>, AllocError>
    ensures { IfOk result (λ made. made ≡ key_literal bound.now part.now) }
{
    match literal_in(part)? {
        None => Ok(None),
        Some(literal) => {
            let text = key_text(alloc, bound, &literal)?;
            Ok(Some(as_literal(alloc, text)?))
        }
    }
}

/// The first part as such a literal.
fn first_key(alloc: Global, bound: &BoundPrefixes, parts: &[Raw]) -> Result<Option<Raw>, AllocError>
    ensures { IfOk result (λ made. made ≡ first_key bound.now parts.now) }
{
    match parts {
        [] => Ok(None),
        [first, ..] => key_literal(alloc, bound, first),
    }
}

/// The parts, of which the first is such a literal.
#[tactic(auto, using(crate::proofs::PartLemmas::firsts))]
fn with_key(
    alloc: Global,
    bound: &BoundPrefixes,
    parts: Vec<Raw>,
) -> Result<Option<List<Raw>>, AllocError>
    ensures { IfOk result (λ made. made ≡ on_first (key_literal bound.now) parts.items) }
{
    let mut parts = parts;
    match first_key(alloc, bound, parts.as_slice())? {
        None => {
            drop(parts);
            Ok(None)
        }
        Some(literal) => {
            if parts.is_empty() {
                return Ok(None);
            }
            parts[0] = literal;
            Ok(Some(List::of_vec(parts)))
        }
    }
}

fn as_node(production: Production, parts: Option<List<Raw>>) -> Option<Raw>
    ensures { result ≡ option_map (node production) parts }
{
    match parts {
        None => None,
        Some(parts) => Some(Raw::Node(production, parts)),
    }
}

fn key_arguments(alloc: Global, bound: &BoundPrefixes, part: Raw) -> Result<Option<Raw>, AllocError>
    ensures { IfOk result (λ made. made ≡ key_arguments bound.now part) }
{
    match part {
        Raw::Leaf(_) => Ok(None),
        Raw::Node(production, parts) => {
            let parts = with_key(alloc, bound, parts.into_vec())?;
            Ok(as_node(production, parts))
        }
    }
}

#[tactic(auto, using(crate::proofs::PartLemmas::lasts))]
fn with_key_arguments(
    alloc: Global,
    bound: &BoundPrefixes,
    parts: Vec<Raw>,
) -> Result<Option<List<Raw>>, AllocError>
    ensures { IfOk result (λ made. made ≡ on_last (key_arguments bound.now) parts.items) }
{
    let mut parts = parts;
    match parts.pop() {
        None => Ok(None),
        Some(last) => match key_arguments(alloc, bound, last)? {
            None => Ok(None),
            Some(last) => {
                parts.push(last)?;
                Ok(Some(List::of_vec(parts)))
            }
        },
    }
}

/// The call of key() that has these parts, with the name of the key in place of the literal that
/// writes it; None where no literal does.
pub(crate) fn key_call(
    alloc: Global,
    bound: &BoundPrefixes,
    parts: List<Raw>,
) -> Result<Option<Raw>, AllocError>
    ensures { IfOk result (λ made. made ≡ key_call bound.now parts) }
{
    let parts = with_key_arguments(alloc, bound, parts.into_vec())?;
    Ok(as_node(Production::Call, parts))
}
