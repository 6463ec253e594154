// The rules on all parts of a production.
ghost use Rattle.std.specs.Prelude.{◌≡◌, ◌++◌, ◌∷◌, [], IfOk};
ghost use Rattle.xt_names.specs.declared.kinds.AtomType.{AtomType};
ghost use Rattle.xt_syntax.specs.declared.exprs.Expr.{Expr};
ghost use Rattle.expr_names.specs.Answers.{Answers};
ghost use Rattle.expr_names.specs.Types.{call_type, type_named, arity_broken};
ghost use Rattle.expr_rules.specs.Rules.{args_in, args_of, call_broken, end_broken, name_and, attr_names, doubles_broken, is_place_of, bind_broken};
ghost use Rattle.std.specs.List.{list_any};

use crate::expr_meant::Meant;
use crate::known::name_of;
use bound_prefixes::BoundPrefixes;
use expr_names::{ResolveFault, call_type, names_differ, no_text, static_fault};
use expr_terms::Production;
use std::alloc::{AllocError, Global};
use xt_names::{AtomType, ExprName, List, Name, QueryStaticCode, Shared, Text};
use xt_syntax::Expr;

#[tactic(auto, unfolding(crate::specs::Rules::args_in))]
fn args_in(alloc: Global, part: &Meant) -> Result<Shared<List<Expr>>, AllocError>
    ensures { IfOk result (λ args. args ≡ args_in part.now) }
{
    match part {
        Meant::Arguments(args) => args.copy(),
        _ => Shared::make(alloc, List::new(alloc)),
    }
}

/// The arguments of a call, from the parts after its name.
pub fn args_of(alloc: Global, parts: &[Meant]) -> Result<Shared<List<Expr>>, AllocError>
    ensures { IfOk result (λ args. args ≡ args_of parts.now) }
{
    match parts {
        [] => Shared::make(alloc, List::new(alloc)),
        [part, ..] => args_in(alloc, part),
    }
}

#[tactic(auto, unfolding(expr_names::specs::Types::arity_broken))]
fn arity_rule(kind: Option<AtomType>, args: &[Expr]) -> Result<(), ResolveFault>
    ensures { Answers result (arity_broken kind args.now) tt }
{
    match kind {
        None => Ok(()),
        Some(_) => match args {
            [] => Err(static_fault(QueryStaticCode::XPST0017)),
            [_] => Ok(()),
            [_, ..] => Err(static_fault(QueryStaticCode::XPST0017)),
        },
    }
}

fn call_rule(
    alloc: Global,
    bound: &BoundPrefixes,
    functions: &Text,
    parts: &[Meant],
) -> Result<(), ResolveFault>
    ensures { Answers result (call_broken bound.now functions.now parts.now) tt }
{
    match parts {
        [] => Ok(()),
        [front, rest @ ..] => {
            let name = name_of(alloc, bound, functions, front)?;
            let args = args_of(alloc, rest)?;
            arity_rule(call_type(&name), args.get().as_slice())
        }
    }
}

#[tactic(auto, unfolding(crate::specs::Rules::is_place_of))]
fn is_place_of(name: &ExprName, part: &Meant) -> bool
    ensures { result ≡ is_place_of name.now part.now }
{
    match part {
        Meant::Place(place) => *name == *place,
        _ => false,
    }
}

fn has_place_of(name: &ExprName, parts: &[Meant]) -> bool
    ensures { result ≡ list_any (is_place_of name.now) parts.now }
{
    parts.iter().any(|part| is_place_of(name, part))
}

fn bind_rule(alloc: Global, bound: &BoundPrefixes, parts: &[Meant]) -> Result<(), ResolveFault>
    ensures { Answers result (bind_broken bound.now parts.now) tt }
{
    match parts {
        [] => Ok(()),
        [front, rest @ ..] => {
            let none = no_text(alloc)?;
            let name = name_of(alloc, bound, &none, front)?;
            if has_place_of(&name, rest) {
                return Err(static_fault(QueryStaticCode::XQST0089));
            }
            Ok(())
        }
    }
}

/// XPST0017 where a call of the name of an atomic type has another number of arguments than one,
/// and XQST0089 where a `for` has one name for its item and its position.
#[tactic(auto, unfolding(crate::specs::Rules::end_broken))]
pub fn end_rule(
    alloc: Global,
    bound: &BoundPrefixes,
    functions: &Text,
    production: Production,
    parts: &[Meant],
) -> Result<(), ResolveFault>
    ensures { Answers result (end_broken bound.now functions.now production parts.now) tt }
{
    match production {
        Production::Call => call_rule(alloc, bound, functions, parts),
        Production::ForIn => bind_rule(alloc, bound, parts),
        _ => Ok(()),
    }
}

fn attr_names(alloc: Global, parts: &[Meant]) -> Result<Vec<Name>, AllocError>
    ensures { IfOk result (λ names. names.items ≡ attr_names parts.now) }
{
    let mut names = Vec::new(alloc);
    for part in parts {
        if let Meant::Attribute(attr) = part {
            names.push(attr.name.copy()?)?;
        }
    }
    Ok(names)
}

/// XQST0040 where two attributes among the parts have one name (XQuery 1.0, 3.7.1.1).
pub fn doubles_rule(alloc: Global, parts: &[Meant]) -> Result<(), ResolveFault>
    ensures { Answers result (doubles_broken parts.now) tt }
{
    let names = attr_names(alloc, parts)?;
    if names_differ(alloc, names.as_slice())? {
        return Ok(());
    }
    Err(static_fault(QueryStaticCode::XQST0040))
}
