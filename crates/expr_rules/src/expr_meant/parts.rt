// What productions take of their parts.
ghost use Rattle.std.specs.Prelude.{◌≡◌, [], IfOk, map};
ghost use Rattle.xt_syntax.specs.declared.exprs.Expr.TheVariants.{Comma};
ghost use Rattle.expr_rules.specs.declared.expr_meant.meant.Meant.TheVariants.{Expr as as_expr};
ghost use Rattle.expr_rules.specs.ExprMeant.Parts.{expr_of, exprs_of, expr_or, expr_in, key_of, has_parts};

use crate::expr_meant::meant::Meant;
use expr_terms::{Key, Token};
use std::alloc::{AllocError, Global};
use xt_names::{List, Shared};
use xt_syntax::Expr;

/// `()`.
pub fn no_items(alloc: Global) -> Result<Shared<Expr>, AllocError>
    ensures { IfOk result (λ e. e ≡ Comma []) }
{
    let none = Shared::make(alloc, List::new(alloc))?;
    Shared::make(alloc, Expr::Comma(none))
}

/// The expression as a part that is one.
pub fn as_part(alloc: Global, e: Expr) -> Result<Meant, AllocError>
    ensures { IfOk result (λ made. made ≡ as_expr e) }
{
    let e = Shared::make(alloc, e)?;
    Ok(Meant::Expr(e))
}

/// The expression that the part is or holds, and `()` where there is none.
#[tactic(auto, unfolding(crate::specs::ExprMeant::Parts::expr_of))]
pub fn expr_of(alloc: Global, part: &Meant) -> Result<Shared<Expr>, AllocError>
    ensures { IfOk result (λ e. e ≡ expr_of part.now) }
{
    match part {
        Meant::Expr(e) | Meant::Tail(_, e) | Meant::Deep(e) | Meant::Where(e) => e.copy(),
        _ => no_items(alloc),
    }
}

fn plain_expr_of(alloc: Global, part: &Meant) -> Result<Expr, AllocError>
    ensures { IfOk result (λ e. e ≡ expr_of part.now) }
{
    let shared = expr_of(alloc, part)?;
    shared.get().copy()
}

/// The expressions that the parts are.
pub fn exprs_of(alloc: Global, parts: &[Meant]) -> Result<List<Expr>, AllocError>
    ensures { IfOk result (λ all. all ≡ exprs_of parts.now) }
{
    let mut all = Vec::with_capacity(alloc, parts.len())?;
    for part in parts {
        all.push(plain_expr_of(alloc, part)?)?;
    }
    Ok(List::of_vec(all))
}

/// The first part that is an expression, and `()` where there is none.
#[tactic(auto, unfolding(crate::specs::ExprMeant::Parts::expr_or))]
pub fn expr_in(alloc: Global, parts: &[Meant]) -> Result<Shared<Expr>, AllocError>
    ensures { IfOk result (λ e. e ≡ expr_in parts.now) }
{
    for part in parts {
        if let Meant::Expr(e) = part {
            return e.copy();
        }
    }
    no_items(alloc)
}

/// The key that the part is, and `,` where it is none.
#[tactic(auto, unfolding(crate::specs::ExprMeant::Parts::key_of, crate::specs::ExprMeant::Parts::key_in))]
pub fn key_of(part: &Meant) -> Key
    ensures { result ≡ key_of part.now }
{
    match part {
        Meant::Token(Token::Key(key)) => *key,
        _ => Key::Comma,
    }
}

/// Whether there is a part.
pub fn has_parts(parts: &[Meant]) -> bool
    ensures { result ≡ has_parts parts.now }
{
    match parts {
        [] => false,
        [_, ..] => true,
    }
}
