// How deep expressions and patterns nest.
ghost use Rattle.std.specs.Prelude.{◌≡◌, min, map};
ghost use Rattle.xt_forms.specs.Nest.{nest_of, arm_nest_of, bind_nest_of, clause_nest_of, order_nest_of, name_nest_of, attr_nest_of, part_nest_of, flwor_nest_of, if_any, step_nest_of, pattern_nest_of};
ghost use Rattle.xt_names.specs.Lists.{greatest};

use xt_syntax::{
    Arm, Bind, Clause, DirectAttr, Expr, Flwor, NameSource, Order, Part, Pattern, PatternStep,
};

/// How many levels the expression has, or the greatest number where it has more: 1 for a leaf, and for any other form 1
/// and the most that a part has. A comma list, an `or` list, an `and` list, a list of predicates and an `if` with all its
/// arms are one level each.
#[cycle(nest)]
pub fn nest(e: &Expr) -> u32
    ensures { result ≡ min (nest_of e.now) u32.MAX }
{
    match e {
        Expr::Int(_) | Expr::Str(_) | Expr::Var(_) | Expr::Context | Expr::Root => 1,
        Expr::Comma(all)
        | Expr::Or(all)
        | Expr::And(all)
        | Expr::Step(_, _, all)
        | Expr::Call(_, all) => { nest_list(all.get().as_slice()).saturating_add(1) }
        Expr::If(arms, other) => nest_arms(arms.get().as_slice())
            .max(nest(other.get()))
            .saturating_add(1),
        Expr::Flwor(parts) => nest_flwor(parts).saturating_add(1),
        Expr::Quant(_, binds, test) => nest_binds(binds.get().as_slice())
            .max(nest(test.get()))
            .saturating_add(1),
        Expr::General(_, a, b)
        | Expr::Value(_, a, b)
        | Expr::Arith(_, a, b)
        | Expr::Is(a, b)
        | Expr::Before(a, b)
        | Expr::After(a, b)
        | Expr::Range(a, b)
        | Expr::Union(a, b)
        | Expr::Intersect(a, b)
        | Expr::Except(a, b)
        | Expr::Slash(a, b) => nest(a.get()).max(nest(b.get())).saturating_add(1),
        Expr::Minus(a)
        | Expr::Plus(a)
        | Expr::DocC(a)
        | Expr::TextC(a)
        | Expr::CommentC(a)
        | Expr::InstanceOf(a, _)
        | Expr::Treat(a, _)
        | Expr::Castable(a, _, _)
        | Expr::Cast(a, _, _) => nest(a.get()).saturating_add(1),
        Expr::Filter(of, tests) => nest(of.get())
            .max(nest_list(tests.get().as_slice()))
            .saturating_add(1),
        Expr::ElemC(name, content) | Expr::AttrC(name, content) | Expr::PiC(name, content) => {
            nest_name(name).max(nest(content.get())).saturating_add(1)
        }
        Expr::Direct(_, attrs, parts) => nest_attrs(attrs.get().as_slice())
            .max(nest_parts(parts.get().as_slice()))
            .saturating_add(1),
    }
}

#[cycle(nest)]
fn nest_list(all: &[Expr]) -> u32
    ensures { result ≡ min (greatest (map nest_of all.now)) u32.MAX }
{
    let mut most: u32 = 0;
    for e in all {
        most = most.max(nest(e));
    }
    most
}

#[cycle(nest)]
fn nest_arms(all: &[Arm]) -> u32
    ensures { result ≡ min (greatest (map arm_nest_of all.now)) u32.MAX }
{
    let mut most: u32 = 0;
    for arm in all {
        most = most.max(nest(arm.test.get()).max(nest(arm.then.get())));
    }
    most
}

#[cycle(nest)]
fn nest_binds(all: &[Bind]) -> u32
    ensures { result ≡ min (greatest (map bind_nest_of all.now)) u32.MAX }
{
    let mut most: u32 = 0;
    for bind in all {
        most = most.max(nest(bind.source.get()));
    }
    most
}

#[cycle(nest)]
fn nest_name(name: &NameSource) -> u32
    ensures { result ≡ min (name_nest_of name.now) u32.MAX }
{
    match name {
        NameSource::Fixed(_) => 0,
        NameSource::Computed(e) => nest(e.get()),
    }
}

#[cycle(nest)]
fn nest_flwor(f: &Flwor) -> u32
    ensures { result ≡ min (flwor_nest_of f.now) u32.MAX }
{
    let test = match &f.test {
        None => 0,
        Some(e) => nest(e.get()),
    };
    nest_clauses(f.clauses.get().as_slice()).max(test.max(nest_orders(
        f.orders.get().as_slice(),
    ).max(nest(f.body.get()))))
}

#[cycle(nest)]
fn nest_clauses(all: &[Clause]) -> u32
    ensures { result ≡ min (greatest (map clause_nest_of all.now)) u32.MAX }
{
    let mut most: u32 = 0;
    for clause in all {
        most = most.max(nest_clause(clause));
    }
    most
}

#[cycle(nest)]
fn nest_clause(clause: &Clause) -> u32
    ensures { result ≡ min (clause_nest_of clause.now) u32.MAX }
{
    match clause {
        Clause::For(bind, _) | Clause::Let(bind) => nest(bind.source.get()),
    }
}

#[cycle(nest)]
fn nest_orders(all: &[Order]) -> u32
    ensures { result ≡ min (greatest (map order_nest_of all.now)) u32.MAX }
{
    let mut most: u32 = 0;
    for order in all {
        most = most.max(nest(order.key.get()));
    }
    most
}

#[cycle(nest)]
fn nest_attrs(all: &[DirectAttr]) -> u32
    ensures { result ≡ min (greatest (map attr_nest_of all.now)) u32.MAX }
{
    let mut most: u32 = 0;
    for attr in all {
        most = most.max(nest_parts(attr.parts.get().as_slice()));
    }
    most
}

#[cycle(nest)]
fn nest_parts(all: &[Part]) -> u32
    ensures { result ≡ min (greatest (map part_nest_of all.now)) u32.MAX }
{
    let mut most: u32 = 0;
    for part in all {
        most = most.max(match part {
            Part::Chars(_) => 0,
            Part::Enclosed(e) | Part::Child(e) => nest(e.get()),
        });
    }
    most
}

/// How many levels the pattern has, or the greatest number where it has more: the most that one of its predicates has,
/// or 1 where it has none.
pub fn nest_pattern(p: &Pattern) -> u32
    ensures { result ≡ min (pattern_nest_of p.now) u32.MAX }
{
    nest_steps(p.steps.as_slice()).max(1)
}

fn nest_steps(all: &[PatternStep]) -> u32
    ensures { result ≡ min (greatest (map step_nest_of all.now)) u32.MAX }
{
    let mut most: u32 = 0;
    for step in all {
        most = most.max(nest_list(step.quiet.as_slice()));
    }
    most
}
