// The rules, form by form.
ghost use Rattle.std.specs.Prelude.{◌≡◌, ◌&&◌, true, map, option_map, IfOk};
ghost use Rattle.expr_names.specs.Doubles.{names_differ};
ghost use Rattle.raw_laws.specs.CleanRaws.Keeps.{all, all_binds, all_attrs, attr_names, if_keeps};
ghost use Rattle.raw_laws.specs.CleanRaws.Keeps.{keeps_rules, arm_keeps_rules, clause_keeps_rules};
ghost use Rattle.raw_laws.specs.CleanRaws.Keeps.{kept_bind, order_keeps_rules, source_keeps_rules};
ghost use Rattle.raw_laws.specs.CleanRaws.Keeps.{kept_attr, part_keeps_rules, flwor_keeps_rules};
ghost use Rattle.expr_drafts.specs.ExprPlaces.Families.{is_branch, is_pair, is_named_constructor};

use crate::attributes::attrs_differ;
use crate::leaves::{is_cast_type, is_other};
use std::alloc::{AllocError, Global};
use xt_names::Shared;
use xt_syntax::{Arm, Bind, Clause, DirectAttr, Expr, Flwor, NameSource, Order, Part};

/// Whether the expression keeps the rules, in all of its parts.
/// (XPath 2.0, 3.10.2; XQuery 1.0, 3.7.1.1 and 3.8.1)
#[cycle(keep)]
pub fn keeps_rules(alloc: Global, e: &Expr) -> Result<bool, AllocError>
    ensures { IfOk result (λ keeps. keeps ≡ keeps_rules e.now) }
{
    match e {
        Expr::Int(_) | Expr::Str(_) | Expr::Var(_) | Expr::Context | Expr::Root => Ok(true),
        Expr::Comma(es) | Expr::Or(es) | Expr::And(es) => all_keep(alloc, es.get().as_slice()),
        Expr::Step(_, _, es) | Expr::Call(_, es) => all_keep(alloc, es.get().as_slice()),
        Expr::If(_, _) | Expr::Quant(_, _, _) => branch_keeps(alloc, e),
        Expr::Flwor(parts) => flwor_keeps(alloc, parts),
        Expr::General(_, _, _) | Expr::Value(_, _, _) | Expr::Arith(_, _, _) => {
            pair_keeps(alloc, e)
        }
        Expr::Is(_, _) | Expr::Before(_, _) | Expr::After(_, _) | Expr::Range(_, _) => {
            pair_keeps(alloc, e)
        }
        Expr::Union(_, _) | Expr::Intersect(_, _) | Expr::Except(_, _) | Expr::Slash(_, _) => {
            pair_keeps(alloc, e)
        }
        Expr::Minus(a) | Expr::Plus(a) | Expr::DocC(a) | Expr::TextC(a) | Expr::CommentC(a) => {
            keeps_rules(alloc, a.get())
        }
        Expr::InstanceOf(a, _) | Expr::Treat(a, _) => keeps_rules(alloc, a.get()),
        Expr::Castable(a, kind, _) | Expr::Cast(a, kind, _) => {
            let first = keeps_rules(alloc, a.get())?;
            Ok(first && is_cast_type(kind))
        }
        Expr::Filter(of, tests) => {
            let first = keeps_rules(alloc, of.get())?;
            let last = all_keep(alloc, tests.get().as_slice())?;
            Ok(first && last)
        }
        _ => constructor_keeps(alloc, e),
    }
}

/// A conditional or a quantified expression.
#[cycle(keep)]
fn branch_keeps(alloc: Global, e: &Expr) -> Result<bool, AllocError>
    requires { is_branch e.now ≡ true }
    ensures { IfOk result (λ keeps. keeps ≡ keeps_rules e.now) }
{
    match e {
        Expr::If(arms, other) => {
            let first = arms_keep(alloc, arms.get().as_slice())?;
            let last = keeps_rules(alloc, other.get())?;
            Ok(first && last)
        }
        Expr::Quant(_, binds, test) => {
            let first = binds_keep(alloc, binds.get().as_slice())?;
            let last = keeps_rules(alloc, test.get())?;
            Ok(first && last)
        }
        _ => unreachable!(),
    }
}

/// Two operands.
#[cycle(keep)]
fn pair_keeps(alloc: Global, e: &Expr) -> Result<bool, AllocError>
    requires { is_pair e.now ≡ true }
    ensures { IfOk result (λ keeps. keeps ≡ keeps_rules e.now) }
{
    match e {
        Expr::General(_, a, b)
        | Expr::Value(_, a, b)
        | Expr::Arith(_, a, b)
        | Expr::Is(a, b)
        | Expr::Before(a, b)
        | Expr::After(a, b)
        | Expr::Range(a, b)
        | Expr::Union(a, b)
        | Expr::Intersect(a, b)
        | Expr::Except(a, b)
        | Expr::Slash(a, b) => {
            let first = keeps_rules(alloc, a.get())?;
            let last = keeps_rules(alloc, b.get())?;
            Ok(first && last)
        }
        _ => unreachable!(),
    }
}

/// A constructor that has a name.
#[cycle(keep)]
fn constructor_keeps(alloc: Global, e: &Expr) -> Result<bool, AllocError>
    requires { is_named_constructor e.now ≡ true }
    ensures { IfOk result (λ keeps. keeps ≡ keeps_rules e.now) }
{
    match e {
        Expr::ElemC(name, content) | Expr::AttrC(name, content) | Expr::PiC(name, content) => {
            let first = source_keeps(alloc, name)?;
            let last = keeps_rules(alloc, content.get())?;
            Ok(first && last)
        }
        Expr::Direct(_, attrs, parts) => {
            let differ = attrs_differ(alloc, attrs.get().as_slice())?;
            let first = attrs_keep(alloc, attrs.get().as_slice())?;
            let last = parts_keep(alloc, parts.get().as_slice())?;
            Ok(differ && (first && last))
        }
        _ => unreachable!(),
    }
}

#[cycle(keep)]
fn all_keep(alloc: Global, es: &[Expr]) -> Result<bool, AllocError>
    ensures { IfOk result (λ keep. keep ≡ all (map keeps_rules es.now)) }
{
    for e in es {
        let keeps = keeps_rules(alloc, e)?;
        if !keeps {
            return Ok(false);
        }
    }
    Ok(true)
}

#[cycle(keep)]
fn arms_keep(alloc: Global, arms: &[Arm]) -> Result<bool, AllocError>
    ensures { IfOk result (λ keep. keep ≡ all (map arm_keeps_rules arms.now)) }
{
    for arm in arms {
        let keeps = arm_keeps(alloc, arm)?;
        if !keeps {
            return Ok(false);
        }
    }
    Ok(true)
}

#[cycle(keep)]
fn arm_keeps(alloc: Global, arm: &Arm) -> Result<bool, AllocError>
    ensures { IfOk result (λ keeps. keeps ≡ arm_keeps_rules arm.now) }
{
    let test = keeps_rules(alloc, arm.test.get())?;
    let then = keeps_rules(alloc, arm.then.get())?;
    Ok(test && then)
}

#[cycle(keep)]
fn binds_keep(alloc: Global, binds: &[Bind]) -> Result<bool, AllocError>
    ensures { IfOk result (λ keep. keep ≡ all_binds (map kept_bind binds.now)) }
{
    for bind in binds {
        let keeps = keeps_rules(alloc, bind.source.get())?;
        if !keeps {
            return Ok(false);
        }
    }
    Ok(true)
}

#[cycle(keep)]
fn flwor_keeps(alloc: Global, f: &Flwor) -> Result<bool, AllocError>
    ensures { IfOk result (λ keeps. keeps ≡ flwor_keeps_rules f.now) }
{
    let clauses = clauses_keep(alloc, f.clauses.get().as_slice())?;
    let test = where_keeps(alloc, &f.test)?;
    let orders = orders_keep(alloc, f.orders.get().as_slice())?;
    let body = keeps_rules(alloc, f.body.get())?;
    Ok(clauses && (test && (orders && body)))
}

#[cycle(keep)]
fn clauses_keep(alloc: Global, clauses: &[Clause]) -> Result<bool, AllocError>
    ensures { IfOk result (λ keep. keep ≡ all (map clause_keeps_rules clauses.now)) }
{
    for clause in clauses {
        let keeps = clause_keeps(alloc, clause)?;
        if !keeps {
            return Ok(false);
        }
    }
    Ok(true)
}

#[cycle(keep)]
fn clause_keeps(alloc: Global, clause: &Clause) -> Result<bool, AllocError>
    ensures { IfOk result (λ keeps. keeps ≡ clause_keeps_rules clause.now) }
{
    match clause {
        Clause::For(bind, place) => {
            let source = keeps_rules(alloc, bind.source.get())?;
            Ok(source && is_other(&bind.var, place))
        }
        Clause::Let(bind) => keeps_rules(alloc, bind.source.get()),
    }
}

#[cycle(keep)]
fn where_keeps(alloc: Global, test: &Option<Shared<Expr>>) -> Result<bool, AllocError>
    ensures { IfOk result (λ keeps. keeps ≡ if_keeps (option_map keeps_rules test.now)) }
{
    match test {
        None => Ok(true),
        Some(e) => keeps_rules(alloc, e.get()),
    }
}

#[cycle(keep)]
fn orders_keep(alloc: Global, orders: &[Order]) -> Result<bool, AllocError>
    ensures { IfOk result (λ keep. keep ≡ all (map order_keeps_rules orders.now)) }
{
    for order in orders {
        let keeps = keeps_rules(alloc, order.key.get())?;
        if !keeps {
            return Ok(false);
        }
    }
    Ok(true)
}

#[cycle(keep)]
fn source_keeps(alloc: Global, name: &NameSource) -> Result<bool, AllocError>
    ensures { IfOk result (λ keeps. keeps ≡ source_keeps_rules name.now) }
{
    match name {
        NameSource::Fixed(_) => Ok(true),
        NameSource::Computed(e) => keeps_rules(alloc, e.get()),
    }
}

#[cycle(keep)]
fn attrs_keep(alloc: Global, attrs: &[DirectAttr]) -> Result<bool, AllocError>
    ensures { IfOk result (λ keep. keep ≡ all_attrs (map kept_attr attrs.now)) }
{
    for attr in attrs {
        let keeps = parts_keep(alloc, attr.parts.get().as_slice())?;
        if !keeps {
            return Ok(false);
        }
    }
    Ok(true)
}

#[cycle(keep)]
fn parts_keep(alloc: Global, parts: &[Part]) -> Result<bool, AllocError>
    ensures { IfOk result (λ keep. keep ≡ all (map part_keeps_rules parts.now)) }
{
    for part in parts {
        let keeps = part_keeps(alloc, part)?;
        if !keeps {
            return Ok(false);
        }
    }
    Ok(true)
}

#[cycle(keep)]
fn part_keeps(alloc: Global, part: &Part) -> Result<bool, AllocError>
    ensures { IfOk result (λ keeps. keeps ≡ part_keeps_rules part.now) }
{
    match part {
        Part::Chars(_) => Ok(true),
        Part::Enclosed(e) | Part::Child(e) => keeps_rules(alloc, e.get()),
    }
}
