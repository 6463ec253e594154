// Expressions of regular form.
ghost use Rattle.std.specs.Prelude.{◌≡◌, map, option_map};
ghost use Rattle.xt_forms.specs.Regular.{is_regular_expr, expr_facts_of, name_facts_of, part_facts_of, is_regular_arm, is_regular_bind, is_regular_clause, is_regular_order, is_regular_attr, is_regular_flwor, every, every_regular, are_regular_parts, test_regular};

use crate::facts::{
    ExprFacts, NameFacts, PartFacts, child_facts, direct_facts, if_facts, other_form,
};
use crate::regular_parts::{
    has_no_child, is_bare_name, is_cast_name, is_cast_type, is_regular_kind,
};
use xt_names::Shared;
use xt_syntax::xt_types::{is_regular_test, is_regular_type};
use xt_syntax::{Arm, Bind, Clause, DirectAttr, Expr, Flwor, NameSource, Order, Part};

/// Whether the expression has the form that the grammar gives (XPath 2.0, 3; XQuery 1.0, 3): all parts are regular, and each
/// of the following holds.
///
/// - An integer is not negative; a comma list does not have exactly one item; `or` and `and` have at least two operands.
/// - An `if` has at least one arm, and its last part is no `if`. A FLWOR has at least one clause, and is stable only with
///   orders. `some` and `every` have at least one binding, a filter has at least one predicate.
/// - A cast is to xs:string, xs:untypedAtomic, xs:integer or xs:boolean, and no call has the name of one of these types.
///   A type is regular, and so is the test of a step.
/// - The fixed name of a processing instruction has no prefix and no uri.
/// - In a direct element no characters are empty or stand beside others; a child is a direct element, and an attribute has
///   no child.
pub fn is_regular(e: &Expr) -> bool
    ensures { result ≡ is_regular_expr e.now }
{
    expr_facts(e).regular
}

#[cycle(regular)]
fn expr_facts(e: &Expr) -> ExprFacts
    ensures { result ≡ expr_facts_of e.now }
{
    match e {
        Expr::Int(n) => other_form(*n >= 0),
        Expr::Str(_) | Expr::Var(_) | Expr::Context | Expr::Root => other_form(true),
        Expr::Comma(all) => other_form(all.get().len() != 1 && are_regular(all.get().as_slice())),
        Expr::Or(all) | Expr::And(all) => other_form(
            all.get().len() >= 2 && are_regular(all.get().as_slice()),
        ),
        Expr::If(arms, other) => if_facts(
            !arms.get().is_empty() && are_regular_arms(arms.get().as_slice()),
            expr_facts(other.get()),
        ),
        Expr::Flwor(parts) => other_form(is_regular_flwor(parts)),
        Expr::Quant(_, binds, test) => other_form(
            !binds.get().is_empty()
                && are_regular_binds(binds.get().as_slice())
                && expr_facts(test.get()).regular,
        ),
        Expr::General(_, a, b)
        | Expr::Value(_, a, b)
        | Expr::Arith(_, a, b)
        | Expr::Is(a, b)
        | Expr::Before(a, b)
        | Expr::After(a, b)
        | Expr::Range(a, b)
        | Expr::Union(a, b)
        | Expr::Intersect(a, b)
        | Expr::Except(a, b)
        | Expr::Slash(a, b) => other_form(
            expr_facts(a.get()).regular && expr_facts(b.get()).regular,
        ),
        Expr::Minus(a) | Expr::Plus(a) | Expr::DocC(a) | Expr::TextC(a) | Expr::CommentC(a) =>
            other_form(expr_facts(a.get()).regular),
        Expr::InstanceOf(a, kind) | Expr::Treat(a, kind) => other_form(
            expr_facts(a.get()).regular && is_regular_type(kind),
        ),
        Expr::Castable(a, kind, _) | Expr::Cast(a, kind, _) => other_form(
            expr_facts(a.get()).regular && is_cast_type(*kind),
        ),
        Expr::Step(_, test, tests) => other_form(
            is_regular_test(test) && are_regular(tests.get().as_slice()),
        ),
        Expr::Filter(of, tests) => other_form(
            expr_facts(of.get()).regular
                && !tests.get().is_empty()
                && are_regular(tests.get().as_slice()),
        ),
        Expr::Call(name, args) => other_form(
            !is_cast_name(name) && are_regular(args.get().as_slice()),
        ),
        Expr::ElemC(name, content) | Expr::AttrC(name, content) => other_form(
            name_facts(name).regular && expr_facts(content.get()).regular,
        ),
        Expr::PiC(name, content) => {
            let name = name_facts(name);
            other_form(name.regular && name.is_bare && expr_facts(content.get()).regular)
        }
        Expr::Direct(_, attrs, parts) => direct_facts(
            are_regular_attrs(attrs.get().as_slice()) && are_regular_parts(parts.get().as_slice()),
        ),
    }
}

#[cycle(regular)]
fn are_regular(all: &[Expr]) -> bool
    ensures { result ≡ every_regular (map expr_facts_of all.now) }
{
    for e in all {
        if !expr_facts(e).regular {
            return false;
        }
    }
    true
}

#[cycle(regular)]
fn are_regular_arms(all: &[Arm]) -> bool
    ensures { result ≡ every (map is_regular_arm all.now) }
{
    for arm in all {
        if !(expr_facts(arm.test.get()).regular && expr_facts(arm.then.get()).regular) {
            return false;
        }
    }
    true
}

#[cycle(regular)]
fn are_regular_binds(all: &[Bind]) -> bool
    ensures { result ≡ every (map is_regular_bind all.now) }
{
    for bind in all {
        if !is_regular_bind(bind) {
            return false;
        }
    }
    true
}

#[cycle(regular)]
fn is_regular_bind(bind: &Bind) -> bool
    ensures { result ≡ is_regular_bind bind.now }
{
    is_regular_kind(&bind.kind) && expr_facts(bind.source.get()).regular
}

#[cycle(regular)]
fn is_regular_flwor(f: &Flwor) -> bool
    ensures { result ≡ is_regular_flwor f.now }
{
    !f.clauses.get().is_empty()
        && are_regular_clauses(f.clauses.get().as_slice())
        && is_regular_where(&f.test)
        && (!f.orders.get().is_empty() || !f.stable)
        && are_regular_orders(f.orders.get().as_slice())
        && expr_facts(f.body.get()).regular
}

#[cycle(regular)]
fn is_regular_where(test: &Option<Shared<Expr>>) -> bool
    ensures { result ≡ test_regular (option_map expr_facts_of test.now) }
{
    match test {
        None => true,
        Some(test) => expr_facts(test.get()).regular,
    }
}

#[cycle(regular)]
fn are_regular_clauses(all: &[Clause]) -> bool
    ensures { result ≡ every (map is_regular_clause all.now) }
{
    for clause in all {
        if !is_regular_clause(clause) {
            return false;
        }
    }
    true
}

#[cycle(regular)]
fn is_regular_clause(clause: &Clause) -> bool
    ensures { result ≡ is_regular_clause clause.now }
{
    match clause {
        Clause::For(bind, _) | Clause::Let(bind) => is_regular_bind(bind),
    }
}

#[cycle(regular)]
fn are_regular_orders(all: &[Order]) -> bool
    ensures { result ≡ every (map is_regular_order all.now) }
{
    for order in all {
        if !expr_facts(order.key.get()).regular {
            return false;
        }
    }
    true
}

#[cycle(regular)]
fn name_facts(name: &NameSource) -> NameFacts
    ensures { result ≡ name_facts_of name.now }
{
    match name {
        NameSource::Fixed(name) => NameFacts {
            regular: true,
            is_bare: is_bare_name(name),
        },
        NameSource::Computed(e) => NameFacts {
            regular: expr_facts(e.get()).regular,
            is_bare: true,
        },
    }
}

#[cycle(regular)]
fn are_regular_attrs(all: &[DirectAttr]) -> bool
    ensures { result ≡ every (map is_regular_attr all.now) }
{
    for attr in all {
        if !(are_regular_parts(attr.parts.get().as_slice())
            && has_no_child(attr.parts.get().as_slice()))
        {
            return false;
        }
    }
    true
}

#[cycle(regular)]
fn are_regular_parts(all: &[Part]) -> bool
    ensures { result ≡ are_regular_parts (map part_facts_of all.now) }
{
    let mut after_chars = false;
    for part in all {
        let facts = part_facts(part);
        if !facts.regular || (after_chars && facts.is_chars) {
            return false;
        }
        after_chars = facts.is_chars;
    }
    true
}

#[cycle(regular)]
fn part_facts(part: &Part) -> PartFacts
    ensures { result ≡ part_facts_of part.now }
{
    match part {
        Part::Chars(text) => PartFacts {
            regular: !text.is_empty(),
            is_chars: true,
            is_child: false,
        },
        Part::Enclosed(e) => PartFacts {
            regular: expr_facts(e.get()).regular,
            is_chars: false,
            is_child: false,
        },
        Part::Child(e) => child_facts(expr_facts(e.get())),
    }
}
