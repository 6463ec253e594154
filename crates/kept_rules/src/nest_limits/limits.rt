// Whether expressions and their parts nest within a limit.
ghost use Rattle.std.specs.Prelude.{◌≡◌, ◌+◌, nat_le, map, option_map};
ghost use Rattle.xt_forms.specs.Nest.{nest_of, if_any, arm_nest_of, bind_nest_of, clause_nest_of, order_nest_of, name_nest_of, attr_nest_of, part_nest_of, flwor_nest_of};
ghost use Rattle.xt_names.specs.Lists.{greatest};

use xt_names::Shared;
use xt_syntax::{Arm, Bind, Clause, DirectAttr, Expr, Flwor, NameSource, Order, Part};

/// Whether the expression has at most so many levels: 1 for a leaf, and for any other form 1 and
/// the most that a part has. No part is looked at that stands deeper than the limit.
/// (XPath 2.0, 3; XQuery 1.0, 3)
#[cycle(within)]
#[tactic(auto, using(crate::proofs::NestLimits::Bounds::levels))]
pub fn nests_within(e: &Expr, limit: u32) -> bool
    ensures { result ≡ nat_le (nest_of e.now) limit }
{
    if limit == 0 {
        return false;
    }
    form_within(e, limit - 1)
}

/// Whether the parts of the expression have at most so many levels.
#[cycle(within)]
#[tactic(auto, using(crate::proofs::NestLimits::Bounds::levels))]
fn form_within(e: &Expr, left: u32) -> bool
    ensures { result ≡ nat_le (nest_of e.now) (1 + left) }
{
    match e {
        Expr::Int(_) | Expr::Str(_) | Expr::Var(_) | Expr::Context | Expr::Root => true,
        Expr::Comma(all) | Expr::Or(all) | Expr::And(all) => all_within(all.get().as_slice(), left),
        Expr::Step(_, _, all) | Expr::Call(_, all) => all_within(all.get().as_slice(), left),
        Expr::If(arms, other) => {
            arms_within(arms.get().as_slice(), left) && nests_within(other.get(), left)
        }
        Expr::Flwor(parts) => flwor_within(parts, left),
        Expr::Quant(_, binds, test) => {
            binds_within(binds.get().as_slice(), left) && nests_within(test.get(), left)
        }
        Expr::General(_, a, b) | Expr::Value(_, a, b) | Expr::Arith(_, a, b) => {
            nests_within(a.get(), left) && nests_within(b.get(), left)
        }
        Expr::Is(a, b) | Expr::Before(a, b) | Expr::After(a, b) | Expr::Range(a, b) => {
            nests_within(a.get(), left) && nests_within(b.get(), left)
        }
        Expr::Union(a, b) | Expr::Intersect(a, b) | Expr::Except(a, b) | Expr::Slash(a, b) => {
            nests_within(a.get(), left) && nests_within(b.get(), left)
        }
        Expr::Minus(a) | Expr::Plus(a) | Expr::DocC(a) | Expr::TextC(a) | Expr::CommentC(a) => {
            nests_within(a.get(), left)
        }
        Expr::InstanceOf(a, _) | Expr::Treat(a, _) => nests_within(a.get(), left),
        Expr::Castable(a, _, _) | Expr::Cast(a, _, _) => nests_within(a.get(), left),
        Expr::Filter(of, tests) => {
            nests_within(of.get(), left) && all_within(tests.get().as_slice(), left)
        }
        Expr::ElemC(name, content) | Expr::AttrC(name, content) | Expr::PiC(name, content) => {
            name_within(name, left) && nests_within(content.get(), left)
        }
        Expr::Direct(_, attrs, parts) => {
            attrs_within(attrs.get().as_slice(), left) && parts_within(parts.get().as_slice(), left)
        }
    }
}

#[cycle(within)]
#[tactic(auto, using(crate::proofs::NestLimits::Bounds::limits))]
fn all_within(all: &[Expr], limit: u32) -> bool
    ensures { result ≡ nat_le (greatest (map nest_of all.now)) limit }
{
    for e in all {
        if !nests_within(e, limit) {
            return false;
        }
    }
    true
}

#[cycle(within)]
#[tactic(auto, using(crate::proofs::NestLimits::Bounds::limits))]
fn arms_within(all: &[Arm], limit: u32) -> bool
    ensures { result ≡ nat_le (greatest (map arm_nest_of all.now)) limit }
{
    for arm in all {
        if !arm_within(arm, limit) {
            return false;
        }
    }
    true
}

#[cycle(within)]
#[tactic(auto, using(crate::proofs::NestLimits::Bounds::limits))]
fn arm_within(arm: &Arm, limit: u32) -> bool
    ensures { result ≡ nat_le (arm_nest_of arm.now) limit }
{
    nests_within(arm.test.get(), limit) && nests_within(arm.then.get(), limit)
}

#[cycle(within)]
#[tactic(auto, using(crate::proofs::NestLimits::Bounds::limits))]
fn binds_within(all: &[Bind], limit: u32) -> bool
    ensures { result ≡ nat_le (greatest (map bind_nest_of all.now)) limit }
{
    for bind in all {
        if !nests_within(bind.source.get(), limit) {
            return false;
        }
    }
    true
}

#[cycle(within)]
#[tactic(auto, using(crate::proofs::NestLimits::Bounds::limits))]
fn name_within(name: &NameSource, limit: u32) -> bool
    ensures { result ≡ nat_le (name_nest_of name.now) limit }
{
    match name {
        NameSource::Fixed(_) => true,
        NameSource::Computed(e) => nests_within(e.get(), limit),
    }
}

#[cycle(within)]
#[tactic(auto, using(crate::proofs::NestLimits::Bounds::limits))]
fn flwor_within(f: &Flwor, limit: u32) -> bool
    ensures { result ≡ nat_le (flwor_nest_of f.now) limit }
{
    clauses_within(f.clauses.get().as_slice(), limit)
        && (where_within(&f.test, limit)
            && (orders_within(f.orders.get().as_slice(), limit)
                && nests_within(f.body.get(), limit)))
}

#[cycle(within)]
#[tactic(auto, using(crate::proofs::NestLimits::Bounds::limits))]
fn where_within(test: &Option<Shared<Expr>>, limit: u32) -> bool
    ensures { result ≡ nat_le (if_any (option_map nest_of test.now)) limit }
{
    match test {
        None => true,
        Some(e) => nests_within(e.get(), limit),
    }
}

#[cycle(within)]
#[tactic(auto, using(crate::proofs::NestLimits::Bounds::limits))]
fn clauses_within(all: &[Clause], limit: u32) -> bool
    ensures { result ≡ nat_le (greatest (map clause_nest_of all.now)) limit }
{
    for clause in all {
        if !clause_within(clause, limit) {
            return false;
        }
    }
    true
}

#[cycle(within)]
fn clause_within(clause: &Clause, limit: u32) -> bool
    ensures { result ≡ nat_le (clause_nest_of clause.now) limit }
{
    match clause {
        Clause::For(bind, _) | Clause::Let(bind) => nests_within(bind.source.get(), limit),
    }
}

#[cycle(within)]
#[tactic(auto, using(crate::proofs::NestLimits::Bounds::limits))]
fn orders_within(all: &[Order], limit: u32) -> bool
    ensures { result ≡ nat_le (greatest (map order_nest_of all.now)) limit }
{
    for order in all {
        if !nests_within(order.key.get(), limit) {
            return false;
        }
    }
    true
}

#[cycle(within)]
#[tactic(auto, using(crate::proofs::NestLimits::Bounds::limits))]
fn attrs_within(all: &[DirectAttr], limit: u32) -> bool
    ensures { result ≡ nat_le (greatest (map attr_nest_of all.now)) limit }
{
    for attr in all {
        if !parts_within(attr.parts.get().as_slice(), limit) {
            return false;
        }
    }
    true
}

#[cycle(within)]
#[tactic(auto, using(crate::proofs::NestLimits::Bounds::limits))]
fn parts_within(all: &[Part], limit: u32) -> bool
    ensures { result ≡ nat_le (greatest (map part_nest_of all.now)) limit }
{
    for part in all {
        if !part_within(part, limit) {
            return false;
        }
    }
    true
}

#[cycle(within)]
#[tactic(auto, using(crate::proofs::NestLimits::Bounds::limits))]
fn part_within(part: &Part, limit: u32) -> bool
    ensures { result ≡ nat_le (part_nest_of part.now) limit }
{
    match part {
        Part::Chars(_) => true,
        Part::Enclosed(e) | Part::Child(e) => nests_within(e.get(), limit),
    }
}
