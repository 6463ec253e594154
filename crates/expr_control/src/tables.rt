// Which production means what.
ghost use Rattle.std.specs.Prelude.{◌≡◌, IfOk};
ghost use Rattle.expr_rules.specs.declared.expr_meant.meant.Meant.TheVariants.{Clauses, Orders, Sequence, Where};
ghost use Rattle.expr_rules.specs.ExprMeant.Parts.{expr_in};
ghost use Rattle.expr_control.specs.Types.{marked, typed};
ghost use Rattle.expr_control.specs.Bindings.{clauses_in, orders_in};
ghost use Rattle.expr_control.specs.Table.{control_value};

use crate::bindings::{for_bind, let_bind, placed, quant_bind};
use crate::chains::{chained, operated, signed};
use crate::flwors::{clauses_in, flwor};
use crate::lists::{conditional, listed, quantified};
use crate::orders::{key_spec, orders_in};
use crate::types::{marked, single, typed};
use bound_prefixes::BoundPrefixes;
use expr_rules::expr_meant::{Meant, expr_in};
use expr_terms::Production;
use std::alloc::{AllocError, Global};
use xt_syntax::Prefixes;
use xt_types::SeqType;

fn clauses(alloc: Global, parts: &[Meant]) -> Result<Meant, AllocError>
    ensures { IfOk result (λ made. made ≡ Clauses (clauses_in parts.now)) }
{
    Ok(Meant::Clauses(clauses_in(alloc, parts)?))
}

fn typed_part(alloc: Global, bound: &BoundPrefixes, parts: &[Meant]) -> Result<Meant, AllocError>
    ensures { IfOk result (λ made. made ≡ Sequence (typed bound.now parts.now)) }
{
    Ok(Meant::Sequence(typed(alloc, bound, parts)?))
}

fn marked_part(alloc: Global, bound: &BoundPrefixes, parts: &[Meant]) -> Result<Meant, AllocError>
    ensures { IfOk result (λ made. made ≡ Sequence (marked bound.now parts.now)) }
{
    Ok(Meant::Sequence(marked(alloc, bound, parts)?))
}

fn where_test(alloc: Global, parts: &[Meant]) -> Result<Meant, AllocError>
    ensures { IfOk result (λ made. made ≡ Where (expr_in parts.now)) }
{
    Ok(Meant::Where(expr_in(alloc, parts)?))
}

fn orders(alloc: Global, stable: bool, parts: &[Meant]) -> Result<Meant, AllocError>
    ensures { IfOk result (λ made. made ≡ Orders stable (orders_in parts.now)) }
{
    Ok(Meant::Orders(stable, orders_in(alloc, parts)?))
}

/// What the production of an operator, a list, a conditional, a binding or a type means, from what
/// its parts mean.
#[tactic(auto, unfolding(crate::specs::Table::control_value))]
pub fn control_value(
    alloc: Global,
    p: &Prefixes,
    production: Production,
    parts: &[Meant],
) -> Result<Meant, AllocError>
    ensures { IfOk result (λ made. made ≡ control_value p.now production parts.now) }
{
    let bound = &p.bound;
    match production {
        Production::ExprList => listed(alloc, parts),
        Production::IfExpr => conditional(alloc, parts),
        Production::FlworExpr => flwor(alloc, parts),
        Production::QuantifiedExpr => quantified(alloc, parts),
        Production::ForClause => clauses(alloc, parts),
        Production::LetClause => clauses(alloc, parts),
        Production::ForIn => for_bind(alloc, bound, parts),
        Production::LetAssign => let_bind(alloc, bound, parts),
        Production::QuantifiedIn => quant_bind(alloc, bound, parts),
        Production::AsType => typed_part(alloc, bound, parts),
        Production::AtVariable => placed(alloc, bound, parts),
        Production::WhereTest => where_test(alloc, parts),
        Production::OrderBy => orders(alloc, false, parts),
        Production::StableOrderBy => orders(alloc, true, parts),
        Production::OrderKey => key_spec(alloc, parts),
        Production::OperatorChain(level) => chained(alloc, level, parts),
        Production::OperatorTail(level) => operated(alloc, bound, level, parts),
        Production::Signed => signed(alloc, parts),
        Production::EmptyType => Ok(Meant::Sequence(SeqType::Empty)),
        Production::ItemsType => marked_part(alloc, bound, parts),
        Production::AnyItem => Ok(Meant::AnyItem),
        Production::SingleAtomicType => single(alloc, bound, parts),
        _ => Ok(Meant::Mark),
    }
}
