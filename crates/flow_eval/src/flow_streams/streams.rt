// FLWOR expressions whose tuples need not be held.
ghost use Rattle.std.specs.Prelude.{◌≡◌, true, None};
ghost use Rattle.xt_syntax.specs.declared.exprs.Clause.TheViews.{out-Bind};
ghost use Rattle.expr_meaning.specs.Env.{Program};
ghost use Rattle.expr_meaning.specs.Meaning.{outcome};
ghost use Rattle.eval_steps.specs.Parts.{bind_outcome};
ghost use Rattle.flow_eval.specs.FlowStreams.Streams.{IsStreamed, AreStreamed, BehindStill, IsStill};
ghost use Rattle.flow_eval.specs.FlowStreams.Streams.{IsStillBound, IsStillClause, IsInteger};

use xt_syntax::{Bind, Clause, Expr, Flwor};

/// Whether the body of each tuple may be evaluated as soon as the tuple stands: true only where that
/// gives the same list, the same error and the same nodes as all tuples first and then the bodies
/// (XQuery 1.0, 3.8). It says so of any number of `let` with one `for` after them, and of further
/// clauses after it whose expressions are literals or ranges of literals, where there is no `where`
/// and no `order by`.
pub fn is_streamed(parts: &Flwor) -> bool
    ensures { result ≡ true → IsStreamed parts.now }
{
    match &parts.test {
        Some(_) => false,
        None => match parts.orders.get().as_slice() {
            [] => are_streamed(parts.clauses.get().as_slice()),
            [_, ..] => false,
        },
    }
}

#[cycle(streamed)]
fn are_streamed(clauses: &[Clause]) -> bool
    ensures { result ≡ true → (p : Program) → AreStreamed clauses.now p }
{
    match clauses {
        [] => true,
        [first, rest @ ..] => match first {
            Clause::Let(_) => are_streamed(rest),
            Clause::For(bind, _) => is_untyped(bind) && are_still(rest),
        },
    }
}

// Clauses that neither fail nor make nodes.
#[cycle(still)]
fn are_still(clauses: &[Clause]) -> bool
    ensures { result ≡ true → (p : Program) → BehindStill clauses.now p }
{
    match clauses {
        [] => true,
        [first, rest @ ..] => is_still_clause(first) && are_still(rest),
    }
}

fn is_still_clause(clause: &Clause) -> bool
    ensures { result ≡ true → (p : Program) → IsStillClause clause.now p }
{
    match clause {
        Clause::Let(bind) => is_still_bind(bind),
        Clause::For(bind, place) => match place {
            None => is_still_bind(bind),
            Some(_) => false,
        },
    }
}

fn is_still_bind(bind: &Bind) -> bool
    ensures { result ≡ true → (p : Program) → IsStillBound (bind_outcome p bind.now) }
{
    is_untyped(bind) && is_still(bind.source.get())
}

fn is_untyped(bind: &Bind) -> bool
    ensures { result ≡ true → (out-Bind bind.now).kind ≡ None }
{
    match &bind.kind {
        None => true,
        Some(_) => false,
    }
}

// A literal, or a range of two integers.
fn is_still(e: &Expr) -> bool
    ensures { result ≡ true → (p : Program) → IsStill (outcome p e.now) }
{
    match e {
        Expr::Int(_) => true,
        Expr::Str(_) => true,
        Expr::Range(from, to) => is_integer(from.get()) && is_integer(to.get()),
        _ => false,
    }
}

fn is_integer(e: &Expr) -> bool
    ensures { result ≡ true → IsInteger e.now }
{
    match e {
        Expr::Int(_) => true,
        _ => false,
    }
}
