// The parts of an expression that are expressions, in reading order.
use std::alloc::AllocGlobal;
use std::process::Abort;
use xt_names::Shared;
use xt_syntax::{Arm, Bind, Clause, DirectAttr, Expr, Flwor, NameSource, Part};

type Kids = Vec<Shared<Expr>>;

fn add(rt: &(impl Abort + AllocGlobal), kids: &mut Kids, e: &Shared<Expr>) {
    kids.push(e.copy().expect(rt, "memory"))
        .expect(rt, "memory");
}

fn add_all(rt: &(impl Abort + AllocGlobal), kids: &mut Kids, all: &[Expr]) {
    for e in all {
        let copy = e.copy().expect(rt, "memory");
        let shared = Shared::make(rt.alloc(), copy).expect(rt, "memory");
        kids.push(shared).expect(rt, "memory");
    }
}

fn add_two(rt: &(impl Abort + AllocGlobal), kids: &mut Kids, a: &Shared<Expr>, b: &Shared<Expr>) {
    add(rt, kids, a);
    add(rt, kids, b);
}

fn add_arms(rt: &(impl Abort + AllocGlobal), kids: &mut Kids, arms: &[Arm]) {
    for arm in arms {
        add(rt, kids, &arm.test);
        add(rt, kids, &arm.then);
    }
}

fn add_binds(rt: &(impl Abort + AllocGlobal), kids: &mut Kids, binds: &[Bind]) {
    for bind in binds {
        add(rt, kids, &bind.source);
    }
}

fn add_flwor(rt: &(impl Abort + AllocGlobal), kids: &mut Kids, parts: &Flwor) {
    for clause in parts.clauses.get().as_slice() {
        match clause {
            Clause::For(bind, _) | Clause::Let(bind) => add(rt, kids, &bind.source),
        }
    }
    if let Some(test) = &parts.test {
        add(rt, kids, test);
    }
    for order in parts.orders.get().as_slice() {
        add(rt, kids, &order.key);
    }
    add(rt, kids, &parts.body);
}

fn add_parts(rt: &(impl Abort + AllocGlobal), kids: &mut Kids, parts: &[Part]) {
    for part in parts {
        match part {
            Part::Chars(text) => {
                let text = Expr::Str(text.copy().expect(rt, "memory"));
                let shared = Shared::make(rt.alloc(), text).expect(rt, "memory");
                kids.push(shared).expect(rt, "memory");
            }
            Part::Enclosed(e) => add(rt, kids, e),
            Part::Child(e) => add(rt, kids, e),
        }
    }
}

fn add_attrs(rt: &(impl Abort + AllocGlobal), kids: &mut Kids, attrs: &[DirectAttr]) {
    for attr in attrs {
        add_parts(rt, kids, attr.parts.get().as_slice());
    }
}

fn add_named(
    rt: &(impl Abort + AllocGlobal),
    kids: &mut Kids,
    name: &NameSource,
    content: &Shared<Expr>,
) {
    if let NameSource::Computed(e) = name {
        add(rt, kids, e);
    }
    add(rt, kids, content);
}

fn add_pairs(rt: &(impl Abort + AllocGlobal), kids: &mut Kids, e: &Expr) {
    match e {
        Expr::General(_, a, b) => add_two(rt, kids, a, b),
        Expr::Value(_, a, b) => add_two(rt, kids, a, b),
        Expr::Is(a, b) => add_two(rt, kids, a, b),
        Expr::Before(a, b) => add_two(rt, kids, a, b),
        Expr::After(a, b) => add_two(rt, kids, a, b),
        Expr::Range(a, b) => add_two(rt, kids, a, b),
        Expr::Arith(_, a, b) => add_two(rt, kids, a, b),
        Expr::Union(a, b) => add_two(rt, kids, a, b),
        Expr::Intersect(a, b) => add_two(rt, kids, a, b),
        Expr::Except(a, b) => add_two(rt, kids, a, b),
        Expr::Slash(a, b) => add_two(rt, kids, a, b),
        _ => {}
    }
}

fn add_ones(rt: &(impl Abort + AllocGlobal), kids: &mut Kids, e: &Expr) {
    match e {
        Expr::Minus(a) => add(rt, kids, a),
        Expr::Plus(a) => add(rt, kids, a),
        Expr::InstanceOf(a, _) => add(rt, kids, a),
        Expr::Treat(a, _) => add(rt, kids, a),
        Expr::Castable(a, _, _) => add(rt, kids, a),
        Expr::Cast(a, _, _) => add(rt, kids, a),
        Expr::DocC(a) => add(rt, kids, a),
        Expr::TextC(a) => add(rt, kids, a),
        Expr::CommentC(a) => add(rt, kids, a),
        _ => add_pairs(rt, kids, e),
    }
}

fn add_lists(rt: &(impl Abort + AllocGlobal), kids: &mut Kids, e: &Expr) {
    match e {
        Expr::Comma(all) => add_all(rt, kids, all.get().as_slice()),
        Expr::Or(all) => add_all(rt, kids, all.get().as_slice()),
        Expr::And(all) => add_all(rt, kids, all.get().as_slice()),
        Expr::Step(_, _, all) => add_all(rt, kids, all.get().as_slice()),
        Expr::Call(_, all) => add_all(rt, kids, all.get().as_slice()),
        Expr::Filter(a, all) => {
            add(rt, kids, a);
            add_all(rt, kids, all.get().as_slice());
        }
        _ => add_ones(rt, kids, e),
    }
}

// All of them.
pub(crate) fn kids_of(rt: &(impl Abort + AllocGlobal), e: &Expr) -> Kids {
    let mut kids = Vec::new(rt.alloc());
    match e {
        Expr::If(arms, other) => {
            add_arms(rt, &mut kids, arms.get().as_slice());
            add(rt, &mut kids, other);
        }
        Expr::Flwor(parts) => add_flwor(rt, &mut kids, parts),
        Expr::Quant(_, binds, test) => {
            add_binds(rt, &mut kids, binds.get().as_slice());
            add(rt, &mut kids, test);
        }
        Expr::ElemC(name, content) => add_named(rt, &mut kids, name, content),
        Expr::AttrC(name, content) => add_named(rt, &mut kids, name, content),
        Expr::PiC(name, content) => add_named(rt, &mut kids, name, content),
        Expr::Direct(_, attrs, parts) => {
            add_attrs(rt, &mut kids, attrs.get().as_slice());
            add_parts(rt, &mut kids, parts.get().as_slice());
        }
        _ => add_lists(rt, &mut kids, e),
    }
    kids
}
