// Clauses, and the whole that they stand in.
ghost use Rattle.std.specs.Prelude.{◌≡◌, ◌++◌, ◌∷◌, [], IfOk};
ghost use Rattle.expr_rules.specs.declared.expr_meant.meant.Meant.TheVariants.{Expr as as_expr};
ghost use Rattle.expr_control.specs.Bindings.{clause_and, clauses_in, clauses_and, all_clauses, where_or, where_in, flwor};

use crate::orders::{all_orders, is_stable};
use expr_rules::expr_meant::{Meant, as_part, expr_in};
use std::alloc::{AllocError, Global};
use xt_names::{List, Shared};
use xt_syntax::{Clause, Expr, Flwor};

#[tactic(auto, unfolding(crate::specs::Bindings::clause_and))]
fn push_clause(clauses: Vec<Clause>, part: &Meant) -> Result<Vec<Clause>, AllocError>
    ensures { IfOk result (λ more. more.items ≡ clauses.items ++ clause_and part.now []) }
{
    let mut clauses = clauses;
    if let Meant::Clause(clause) = part {
        clauses.push(clause.copy()?)?;
    }
    Ok(clauses)
}

/// All variables of one `for` or `let`.
pub fn clauses_in(alloc: Global, parts: &[Meant]) -> Result<Shared<List<Clause>>, AllocError>
    ensures { IfOk result (λ clauses. clauses ≡ clauses_in parts.now) }
{
    let mut clauses = Vec::new(alloc);
    for part in parts {
        clauses = push_clause(clauses, part)?;
    }
    Shared::make(alloc, List::of_vec(clauses))
}

fn copied(clause: &Clause, clauses: Vec<Clause>) -> Result<Vec<Clause>, AllocError>
    ensures { IfOk result (λ more. more.items ≡ clauses.items ++ clause.now ∷ []) }
{
    let mut clauses = clauses;
    clauses.push(clause.copy()?)?;
    Ok(clauses)
}

fn push_all(clauses: Vec<Clause>, all: &[Clause]) -> Result<Vec<Clause>, AllocError>
    ensures { IfOk result (λ more. more.items ≡ clauses.items ++ all.now) }
{
    let mut more = clauses;
    for clause in all {
        more = copied(clause, more)?;
    }
    Ok(more)
}

#[tactic(auto, unfolding(crate::specs::Bindings::clauses_and))]
fn push_clauses(clauses: Vec<Clause>, part: &Meant) -> Result<Vec<Clause>, AllocError>
    ensures { IfOk result (λ more. more.items ≡ clauses.items ++ clauses_and part.now []) }
{
    match part {
        Meant::Clauses(all) => push_all(clauses, all.get().as_slice()),
        _ => Ok(clauses),
    }
}

fn all_clauses(alloc: Global, parts: &[Meant]) -> Result<Vec<Clause>, AllocError>
    ensures { IfOk result (λ clauses. clauses.items ≡ all_clauses parts.now) }
{
    let mut clauses = Vec::new(alloc);
    for part in parts {
        clauses = push_clauses(clauses, part)?;
    }
    Ok(clauses)
}

#[tactic(auto, unfolding(crate::specs::Bindings::where_or))]
fn where_in(parts: &[Meant]) -> Result<Option<Shared<Expr>>, AllocError>
    ensures { IfOk result (λ e. e ≡ where_in parts.now) }
{
    for part in parts {
        if let Meant::Where(e) = part {
            return Ok(Some(e.copy()?));
        }
    }
    Ok(None)
}

/// Clauses, `where`, `order by` and `return`.
pub fn flwor(alloc: Global, parts: &[Meant]) -> Result<Meant, AllocError>
    ensures { IfOk result (λ made. made ≡ as_expr (flwor parts.now)) }
{
    let clauses = Shared::make(alloc, List::of_vec(all_clauses(alloc, parts)?))?;
    let test = where_in(parts)?;
    let orders = all_orders(alloc, parts)?;
    let body = expr_in(alloc, parts)?;
    let parts = Flwor {
        clauses,
        test,
        orders,
        stable: is_stable(parts),
        body,
    };
    as_part(alloc, Expr::Flwor(parts))
}
