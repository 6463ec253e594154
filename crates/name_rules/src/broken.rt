#![tactic(auto, using(crate::proofs::FaultLemmas::earlier_at_end), unfolding(crate::specs::Faults::first, crate::specs::Faults::earlier))]
// Variables and functions that are not in scope where they are named.
//
// Where a part breaks a rule, the parts after it are looked at all the same: that takes no longer than to look at an
// expression that breaks none.
ghost use Rattle.std.specs.Prelude.{◌≡◌, IfOk, map, option_map};
ghost use Rattle.name_rules.specs.Broken.{names_broken_of, arm_broken, clause_binder, bind_binder, order_broken, name_broken, attr_broken, part_broken, flwor_broken, all_in, if_any, binders_in, behind};
ghost use Rattle.name_rules.specs.Faults.{first};

use crate::faults::earlier;
use crate::functions::Functions;
use crate::leaves::{check_function, check_variable, with_bind, with_clause};
use crate::scopes::VariableScope;
use std::alloc::AllocError;
use xt_names::{Code, Shared};
use xt_syntax::{Arm, Bind, Clause, DirectAttr, Expr, Flwor, NameSource, Order, Part};

/// What is found in what binds variables, and the variables that are in scope after it.
#[derive(Drop)]
struct Bound {
    fault: Option<Code>,
    scope: VariableScope,
}

/// The first rule on names, in reading order, that the expression breaks, where these functions are declared and these
/// variables are in scope; None exactly where it breaks none. The rules are XPST0008, of a variable that is not in scope
/// where it is named (XPath 2.0, 3.1.2), and XPST0017, of a call of a function that is not known with so many arguments
/// (XPath 2.0, 3.1.5). The variables of `for`, `let`, `some` and `every` are in scope after their sources.
#[cycle(names)]
pub fn broken_names(
    e: &Expr,
    functions: &Functions,
    scope: &VariableScope,
) -> Result<Option<Code>, AllocError>
    ensures { IfOk result (λ fault. fault ≡ first (names_broken_of functions.now e.now scope.now)) }
{
    match e {
        Expr::Int(_) | Expr::Str(_) | Expr::Context | Expr::Root => Ok(None),
        Expr::Var(name) => Ok(check_variable(name, scope)),
        Expr::Comma(all) | Expr::Or(all) | Expr::And(all) | Expr::Step(_, _, all) => {
            check_all(all.get().as_slice(), functions, scope)
        }
        Expr::If(arms, other) => {
            let first = check_arms(arms.get().as_slice(), functions, scope)?;
            let last = broken_names(other.get(), functions, scope)?;
            Ok(earlier(first, last))
        }
        Expr::Flwor(parts) => check_flwor(parts, functions, scope),
        Expr::Quant(_, binds, test) => {
            let bound = check_binds(binds.get().as_slice(), functions, scope)?;
            let last = broken_names(test.get(), functions, &bound.scope)?;
            Ok(earlier(bound.fault, last))
        }
        Expr::General(_, a, b)
        | Expr::Value(_, a, b)
        | Expr::Arith(_, a, b)
        | Expr::Is(a, b)
        | Expr::Before(a, b)
        | Expr::After(a, b)
        | Expr::Range(a, b)
        | Expr::Union(a, b)
        | Expr::Intersect(a, b)
        | Expr::Except(a, b)
        | Expr::Slash(a, b) => {
            let first = broken_names(a.get(), functions, scope)?;
            let last = broken_names(b.get(), functions, scope)?;
            Ok(earlier(first, last))
        }
        Expr::Minus(a)
        | Expr::Plus(a)
        | Expr::DocC(a)
        | Expr::TextC(a)
        | Expr::CommentC(a)
        | Expr::InstanceOf(a, _)
        | Expr::Treat(a, _)
        | Expr::Castable(a, _, _)
        | Expr::Cast(a, _, _) => broken_names(a.get(), functions, scope),
        Expr::Filter(of, tests) => {
            let first = broken_names(of.get(), functions, scope)?;
            let last = check_all(tests.get().as_slice(), functions, scope)?;
            Ok(earlier(first, last))
        }
        Expr::Call(name, args) => {
            let first = check_function(name, args.get().len(), functions)?;
            let last = check_all(args.get().as_slice(), functions, scope)?;
            Ok(earlier(first, last))
        }
        Expr::ElemC(name, content) | Expr::AttrC(name, content) | Expr::PiC(name, content) => {
            let first = check_name(name, functions, scope)?;
            let last = broken_names(content.get(), functions, scope)?;
            Ok(earlier(first, last))
        }
        Expr::Direct(_, attrs, parts) => {
            let first = check_attrs(attrs.get().as_slice(), functions, scope)?;
            let last = check_parts(parts.get().as_slice(), functions, scope)?;
            Ok(earlier(first, last))
        }
    }
}

#[cycle(names)]
fn check_all(
    all: &[Expr],
    functions: &Functions,
    scope: &VariableScope,
) -> Result<Option<Code>, AllocError>
    ensures { IfOk result (λ fault. fault ≡ first (all_in (map (names_broken_of functions.now) all.now) scope.now)) }
{
    let mut fault = None;
    for e in all {
        let found = broken_names(e, functions, scope)?;
        fault = earlier(fault, found);
    }
    Ok(fault)
}

#[cycle(names)]
fn check_arms(
    all: &[Arm],
    functions: &Functions,
    scope: &VariableScope,
) -> Result<Option<Code>, AllocError>
    ensures { IfOk result (λ fault. fault ≡ first (all_in (map (arm_broken functions.now) all.now) scope.now)) }
{
    let mut fault = None;
    for arm in all {
        let found = check_arm(arm, functions, scope)?;
        fault = earlier(fault, found);
    }
    Ok(fault)
}

#[cycle(names)]
fn check_arm(
    arm: &Arm,
    functions: &Functions,
    scope: &VariableScope,
) -> Result<Option<Code>, AllocError>
    ensures { IfOk result (λ fault. fault ≡ first (arm_broken functions.now arm.now scope.now)) }
{
    let first = broken_names(arm.test.get(), functions, scope)?;
    let last = broken_names(arm.then.get(), functions, scope)?;
    Ok(earlier(first, last))
}

#[cycle(names)]
fn check_binds(
    all: &[Bind],
    functions: &Functions,
    scope: &VariableScope,
) -> Result<Bound, AllocError>
    ensures fault { IfOk result (λ bound. bound.fault ≡ first (binders_in (map (bind_binder functions.now) all.now) scope.now)) }
    ensures scope { IfOk result (λ bound. bound.scope ≡ behind (map (bind_binder functions.now) all.now) scope.now) }
{
    let mut fault = None;
    let mut inner = scope.inside()?;
    for bind in all {
        let found = check_bind(bind, functions, &inner)?;
        fault = earlier(fault, found);
        inner = with_bind(inner, bind)?;
    }
    Ok(Bound {
        fault,
        scope: inner,
    })
}

#[cycle(names)]
fn check_bind(
    bind: &Bind,
    functions: &Functions,
    scope: &VariableScope,
) -> Result<Option<Code>, AllocError>
    ensures { IfOk result (λ fault. fault ≡ first ((bind_binder functions.now bind.now).source scope.now)) }
{
    broken_names(bind.source.get(), functions, scope)
}

#[cycle(names)]
fn check_flwor(
    f: &Flwor,
    functions: &Functions,
    scope: &VariableScope,
) -> Result<Option<Code>, AllocError>
    ensures { IfOk result (λ fault. fault ≡ first (flwor_broken functions.now f.now scope.now)) }
{
    let bound = check_clauses(f.clauses.get().as_slice(), functions, scope)?;
    let test = check_test(&f.test, functions, &bound.scope)?;
    let orders = check_orders(f.orders.get().as_slice(), functions, &bound.scope)?;
    let body = broken_names(f.body.get(), functions, &bound.scope)?;
    let last = earlier(orders, body);
    let rest = earlier(test, last);
    Ok(earlier(bound.fault, rest))
}

#[cycle(names)]
fn check_clauses(
    all: &[Clause],
    functions: &Functions,
    scope: &VariableScope,
) -> Result<Bound, AllocError>
    ensures fault { IfOk result (λ bound. bound.fault ≡ first (binders_in (map (clause_binder functions.now) all.now) scope.now)) }
    ensures scope { IfOk result (λ bound. bound.scope ≡ behind (map (clause_binder functions.now) all.now) scope.now) }
{
    let mut fault = None;
    let mut inner = scope.inside()?;
    for clause in all {
        let found = check_clause(clause, functions, &inner)?;
        fault = earlier(fault, found);
        inner = with_clause(inner, clause)?;
    }
    Ok(Bound {
        fault,
        scope: inner,
    })
}

#[cycle(names)]
fn check_clause(
    clause: &Clause,
    functions: &Functions,
    scope: &VariableScope,
) -> Result<Option<Code>, AllocError>
    ensures { IfOk result (λ fault. fault ≡ first ((clause_binder functions.now clause.now).source scope.now)) }
{
    match clause {
        Clause::For(bind, _) | Clause::Let(bind) => {
            broken_names(bind.source.get(), functions, scope)
        }
    }
}

#[cycle(names)]
fn check_test(
    test: &Option<Shared<Expr>>,
    functions: &Functions,
    scope: &VariableScope,
) -> Result<Option<Code>, AllocError>
    ensures { IfOk result (λ fault. fault ≡ first (if_any (option_map (names_broken_of functions.now) test.now) scope.now)) }
{
    match test {
        None => Ok(None),
        Some(e) => broken_names(e.get(), functions, scope),
    }
}

#[cycle(names)]
fn check_orders(
    all: &[Order],
    functions: &Functions,
    scope: &VariableScope,
) -> Result<Option<Code>, AllocError>
    ensures { IfOk result (λ fault. fault ≡ first (all_in (map (order_broken functions.now) all.now) scope.now)) }
{
    let mut fault = None;
    for order in all {
        let found = check_order(order, functions, scope)?;
        fault = earlier(fault, found);
    }
    Ok(fault)
}

#[cycle(names)]
fn check_order(
    order: &Order,
    functions: &Functions,
    scope: &VariableScope,
) -> Result<Option<Code>, AllocError>
    ensures { IfOk result (λ fault. fault ≡ first (order_broken functions.now order.now scope.now)) }
{
    broken_names(order.key.get(), functions, scope)
}

#[cycle(names)]
fn check_name(
    name: &NameSource,
    functions: &Functions,
    scope: &VariableScope,
) -> Result<Option<Code>, AllocError>
    ensures { IfOk result (λ fault. fault ≡ first (name_broken functions.now name.now scope.now)) }
{
    match name {
        NameSource::Fixed(_) => Ok(None),
        NameSource::Computed(e) => broken_names(e.get(), functions, scope),
    }
}

#[cycle(names)]
fn check_attrs(
    all: &[DirectAttr],
    functions: &Functions,
    scope: &VariableScope,
) -> Result<Option<Code>, AllocError>
    ensures { IfOk result (λ fault. fault ≡ first (all_in (map (attr_broken functions.now) all.now) scope.now)) }
{
    let mut fault = None;
    for attr in all {
        let found = check_attr(attr, functions, scope)?;
        fault = earlier(fault, found);
    }
    Ok(fault)
}

#[cycle(names)]
fn check_attr(
    attr: &DirectAttr,
    functions: &Functions,
    scope: &VariableScope,
) -> Result<Option<Code>, AllocError>
    ensures { IfOk result (λ fault. fault ≡ first (attr_broken functions.now attr.now scope.now)) }
{
    check_parts(attr.parts.get().as_slice(), functions, scope)
}

#[cycle(names)]
fn check_parts(
    all: &[Part],
    functions: &Functions,
    scope: &VariableScope,
) -> Result<Option<Code>, AllocError>
    ensures { IfOk result (λ fault. fault ≡ first (all_in (map (part_broken functions.now) all.now) scope.now)) }
{
    let mut fault = None;
    for part in all {
        let found = check_part(part, functions, scope)?;
        fault = earlier(fault, found);
    }
    Ok(fault)
}

#[cycle(names)]
fn check_part(
    part: &Part,
    functions: &Functions,
    scope: &VariableScope,
) -> Result<Option<Code>, AllocError>
    ensures { IfOk result (λ fault. fault ≡ first (part_broken functions.now part.now scope.now)) }
{
    match part {
        Part::Chars(_) => Ok(None),
        Part::Enclosed(e) | Part::Child(e) => broken_names(e.get(), functions, scope),
    }
}
