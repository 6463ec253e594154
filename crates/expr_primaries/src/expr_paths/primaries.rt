// Literals, variables and calls.
ghost use Rattle.std.specs.Prelude.{◌≡◌, [], IfOk};
ghost use Rattle.xt_syntax.specs.declared.exprs.Expr.TheVariants.{Comma};
ghost use Rattle.expr_rules.specs.declared.expr_meant.meant.Meant.TheVariants.{Expr as as_expr};
ghost use Rattle.expr_rules.specs.ExprMeant.Parts.{expr_in};
ghost use Rattle.expr_primaries.specs.ExprPaths.Primaries.{literal_in, literal_of, literal, variable, only_arg, called, call};

use bound_prefixes::BoundPrefixes;
use expr_rules::expr_meant::{Meant, as_part, expr_in, no_items};
use expr_rules::expr_names::{call_type, no_text};
use expr_rules::{args_of, name_of};
use expr_terms::Token;
use std::alloc::{AllocError, Global};
use xt_names::{AtomType, ExprName, List, Shared, Text};
use xt_syntax::Expr;

/// `()`, where a part is missing.
pub(crate) fn nothing(alloc: Global) -> Result<Meant, AllocError>
    ensures { IfOk result (λ made. made ≡ as_expr (Comma [])) }
{
    Ok(Meant::Expr(no_items(alloc)?))
}

#[tactic(auto, unfolding(crate::specs::ExprPaths::Primaries::literal_in))]
fn literal_in(alloc: Global, token: &Token) -> Result<Meant, AllocError>
    ensures { IfOk result (λ made. made ≡ as_expr (literal_in token.now)) }
{
    match token {
        Token::Digits(n) => as_part(alloc, Expr::Int(*n)),
        Token::Quoted(text) => as_part(alloc, Expr::Str(text.copy()?)),
        _ => nothing(alloc),
    }
}

#[tactic(auto, unfolding(crate::specs::ExprPaths::Primaries::literal_of))]
fn literal_of(alloc: Global, part: &Meant) -> Result<Meant, AllocError>
    ensures { IfOk result (λ made. made ≡ as_expr (literal_of part.now)) }
{
    match part {
        Meant::Token(token) => literal_in(alloc, token),
        _ => nothing(alloc),
    }
}

/// An integer or a string.
pub fn literal(alloc: Global, parts: &[Meant]) -> Result<Meant, AllocError>
    ensures { IfOk result (λ made. made ≡ as_expr (literal parts.now)) }
{
    match parts {
        [] => nothing(alloc),
        [part, ..] => literal_of(alloc, part),
    }
}

/// `$v`.
pub fn variable(alloc: Global, bound: &BoundPrefixes, parts: &[Meant]) -> Result<Meant, AllocError>
    ensures { IfOk result (λ made. made ≡ as_expr (variable bound.now parts.now)) }
{
    match parts {
        [] => nothing(alloc),
        [part, ..] => {
            let none = no_text(alloc)?;
            let name = name_of(alloc, bound, &none, part)?;
            as_part(alloc, Expr::Var(name))
        }
    }
}

fn only_arg(alloc: Global, args: &[Expr]) -> Result<Shared<Expr>, AllocError>
    ensures { IfOk result (λ e. e ≡ only_arg args.now) }
{
    match args {
        [] => no_items(alloc),
        [arg, ..] => Shared::make(alloc, arg.copy()?),
    }
}

#[tactic(auto, unfolding(crate::specs::ExprPaths::Primaries::called))]
fn called(
    alloc: Global,
    name: ExprName,
    kind: Option<AtomType>,
    args: Shared<List<Expr>>,
) -> Result<Meant, AllocError>
    ensures { IfOk result (λ made. made ≡ as_expr (called name kind args)) }
{
    match kind {
        None => as_part(alloc, Expr::Call(name, args)),
        Some(kind) => {
            let arg = only_arg(alloc, args.get().as_slice())?;
            as_part(alloc, Expr::Cast(arg, kind, true))
        }
    }
}

/// `f(a, b, ..)`, which is a cast where `f` is the name of an atomic type (XPath 2.0, 3.10.4).
pub fn call(
    alloc: Global,
    bound: &BoundPrefixes,
    functions: &Text,
    parts: &[Meant],
) -> Result<Meant, AllocError>
    ensures { IfOk result (λ made. made ≡ as_expr (call bound.now functions.now parts.now)) }
{
    match parts {
        [] => nothing(alloc),
        [front, rest @ ..] => {
            let name = name_of(alloc, bound, functions, front)?;
            let kind = call_type(&name);
            let args = args_of(alloc, rest)?;
            called(alloc, name, kind, args)
        }
    }
}

/// The expression among the parts, and `()` where there is none.
pub fn only_expr(alloc: Global, parts: &[Meant]) -> Result<Meant, AllocError>
    ensures { IfOk result (λ made. made ≡ as_expr (expr_in parts.now)) }
{
    Ok(Meant::Expr(expr_in(alloc, parts)?))
}
