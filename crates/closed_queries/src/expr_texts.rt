// Expressions whose texts and names are those that XML allows.
ghost use Rattle.std.specs.Prelude.{◌≡◌, map, option_map};
ghost use Rattle.xt_forms.specs.Regular.{every};
ghost use Rattle.closed_queries.specs.ExprTexts.{has_sound_texts, is_sound_arm, is_sound_clause, bound_of, every_bound, is_sound_order, is_sound_source, is_sound_attr, is_sound_part, is_sound_flwor, is_sound_place, if_sound};

use crate::texts::{
    is_sound_attribute_name, is_sound_expr_name, is_sound_kind, is_sound_name, is_sound_test,
    is_sound_type,
};
use xt_names::{ExprName, Shared, is_xml_text};
use xt_syntax::{Arm, Bind, Clause, DirectAttr, Expr, Flwor, NameSource, Order, Part};

/// Whether the texts in the expression are of characters of XML and its names can be written, and no `for` has one name
/// for its item and its position (XQuery 1.0, 3.8.1). A fixed name of `attribute n {..}` may be `xmlns`.
#[cycle(sound)]
pub fn has_sound_texts(e: &Expr) -> bool
    ensures { result ≡ has_sound_texts e.now }
{
    match e {
        Expr::Int(_) | Expr::Context | Expr::Root => true,
        Expr::Str(text) => is_xml_text(text.as_str()),
        Expr::Var(name) => is_sound_expr_name(name),
        Expr::Comma(all) | Expr::Or(all) | Expr::And(all) => are_sound(all.get().as_slice()),
        Expr::If(arms, other) => are_sound_arms(arms.get().as_slice())
            && has_sound_texts(other.get()),
        Expr::Flwor(parts) => is_sound_flwor(parts),
        Expr::Quant(_, binds, test) => are_sound_binds(binds.get().as_slice())
            && has_sound_texts(test.get()),
        Expr::General(_, a, b)
        | Expr::Value(_, a, b)
        | Expr::Arith(_, a, b)
        | Expr::Is(a, b)
        | Expr::Before(a, b)
        | Expr::After(a, b)
        | Expr::Range(a, b)
        | Expr::Union(a, b)
        | Expr::Intersect(a, b)
        | Expr::Except(a, b)
        | Expr::Slash(a, b) => has_sound_texts(a.get()) && has_sound_texts(b.get()),
        Expr::Minus(a)
        | Expr::Plus(a)
        | Expr::DocC(a)
        | Expr::TextC(a)
        | Expr::CommentC(a)
        | Expr::Castable(a, _, _)
        | Expr::Cast(a, _, _) => has_sound_texts(a.get()),
        Expr::InstanceOf(a, kind) | Expr::Treat(a, kind) => has_sound_texts(a.get())
            && is_sound_type(kind),
        Expr::Step(_, test, tests) => is_sound_test(test) && are_sound(tests.get().as_slice()),
        Expr::Filter(of, tests) => has_sound_texts(of.get()) && are_sound(tests.get().as_slice()),
        Expr::Call(name, args) => is_sound_expr_name(name) && are_sound(args.get().as_slice()),
        Expr::ElemC(name, content) | Expr::AttrC(name, content) | Expr::PiC(name, content) => {
            is_sound_source(name) && has_sound_texts(content.get())
        }
        Expr::Direct(name, attrs, parts) => is_sound_name(name)
            && are_sound_attrs(attrs.get().as_slice())
            && are_sound_parts(parts.get().as_slice()),
    }
}

#[cycle(sound)]
fn are_sound(all: &[Expr]) -> bool
    ensures { result ≡ every (map has_sound_texts all.now) }
{
    for e in all {
        if !has_sound_texts(e) {
            return false;
        }
    }
    true
}

#[cycle(sound)]
fn are_sound_arms(all: &[Arm]) -> bool
    ensures { result ≡ every (map is_sound_arm all.now) }
{
    for arm in all {
        if !(has_sound_texts(arm.test.get()) && has_sound_texts(arm.then.get())) {
            return false;
        }
    }
    true
}

#[cycle(sound)]
fn are_sound_binds(all: &[Bind]) -> bool
    ensures { result ≡ every_bound (map bound_of all.now) }
{
    for bind in all {
        if !is_sound_bind(bind) {
            return false;
        }
    }
    true
}

#[cycle(sound)]
fn is_sound_bind(bind: &Bind) -> bool
    ensures { result ≡ (bound_of bind.now).sound }
{
    is_sound_expr_name(&bind.var) && is_sound_kind(&bind.kind) && has_sound_texts(bind.source.get())
}

#[cycle(sound)]
fn is_sound_flwor(f: &Flwor) -> bool
    ensures { result ≡ is_sound_flwor f.now }
{
    are_sound_clauses(f.clauses.get().as_slice())
        && is_sound_where(&f.test)
        && are_sound_orders(f.orders.get().as_slice())
        && has_sound_texts(f.body.get())
}

#[cycle(sound)]
fn are_sound_clauses(all: &[Clause]) -> bool
    ensures { result ≡ every (map is_sound_clause all.now) }
{
    for clause in all {
        if !is_sound_clause(clause) {
            return false;
        }
    }
    true
}

#[cycle(sound)]
fn is_sound_clause(clause: &Clause) -> bool
    ensures { result ≡ is_sound_clause clause.now }
{
    match clause {
        Clause::For(bind, place) => is_sound_bind(bind) && is_sound_place(&bind.var, place),
        Clause::Let(bind) => is_sound_bind(bind),
    }
}

#[tactic(auto, unfolding(crate::specs::ExprTexts::is_sound_place))]
fn is_sound_place(var: &ExprName, place: &Option<ExprName>) -> bool
    ensures { result ≡ is_sound_place var.now place.now }
{
    match place {
        None => true,
        Some(place) => is_sound_expr_name(place) && *var != *place,
    }
}

#[cycle(sound)]
fn is_sound_where(test: &Option<Shared<Expr>>) -> bool
    ensures { result ≡ if_sound (option_map has_sound_texts test.now) }
{
    match test {
        None => true,
        Some(e) => has_sound_texts(e.get()),
    }
}

#[cycle(sound)]
fn are_sound_orders(all: &[Order]) -> bool
    ensures { result ≡ every (map is_sound_order all.now) }
{
    for order in all {
        if !has_sound_texts(order.key.get()) {
            return false;
        }
    }
    true
}

#[cycle(sound)]
fn is_sound_source(name: &NameSource) -> bool
    ensures { result ≡ is_sound_source name.now }
{
    match name {
        NameSource::Fixed(name) => is_sound_name(name),
        NameSource::Computed(e) => has_sound_texts(e.get()),
    }
}

#[cycle(sound)]
fn are_sound_attrs(all: &[DirectAttr]) -> bool
    ensures { result ≡ every (map is_sound_attr all.now) }
{
    for attr in all {
        if !(is_sound_attribute_name(&attr.name) && are_sound_parts(attr.parts.get().as_slice())) {
            return false;
        }
    }
    true
}

#[cycle(sound)]
fn are_sound_parts(all: &[Part]) -> bool
    ensures { result ≡ every (map is_sound_part all.now) }
{
    for part in all {
        if !is_sound_part(part) {
            return false;
        }
    }
    true
}

#[cycle(sound)]
fn is_sound_part(part: &Part) -> bool
    ensures { result ≡ is_sound_part part.now }
{
    match part {
        Part::Chars(text) => is_xml_text(text.as_str()),
        Part::Enclosed(e) | Part::Child(e) => has_sound_texts(e.get()),
    }
}
