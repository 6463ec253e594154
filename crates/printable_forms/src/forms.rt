// What each form of expressions asks of its parts.
ghost use Rattle.std.specs.Prelude.{◌≡◌, true, [], map, option_map, IfOk};
ghost use Rattle.expr_keys.specs.declared.productions.Class.TheVariants as class_of;
ghost use Rattle.expr_raws.specs.PathRaws.Forms.{all_can};
ghost use Rattle.expr_raws.specs.ControlRaws.Operators.{arms_can};
ghost use Rattle.expr_raws.specs.ControlRaws.Bindings.{bind_can, binds_can, clauses_can};
ghost use Rattle.expr_raws.specs.ControlRaws.Bindings.{orders_can, may};
ghost use Rattle.expr_raws.specs.ElementRaws.Direct.{attr_can, attrs_can, part_can, parts_can};
ghost use Rattle.expr_raws.specs.Raws.{form_of, is_printable};
ghost use Rattle.expr_drafts.specs.ExprPlaces.Forms.{arm_form, bind_form, clause_form, order_form, name_form};
ghost use Rattle.expr_drafts.specs.ExprPlaces.Forms.{attr_form, part_form, flwor_form};
ghost use Rattle.expr_drafts.specs.ExprPlaces.Families.{is_branch, is_pair, is_typed, is_step};
ghost use Rattle.expr_drafts.specs.ExprPlaces.Families.{is_named_constructor};
ghost use Rattle.printable_forms.specs.Lists.{not_one, several};
ghost use Rattle.printable_forms.specs.Named.{named_can};

use crate::names::{
    has_attribute, has_bare_name, has_call, has_element_name, has_front, has_name, has_place,
    has_type,
};
use crate::roots::{
    has_arms, has_binds, has_clauses, has_tests, is_characters, is_direct, is_if, is_settled,
};
use crate::runs::can_run;
use crate::types::{has_kind, has_node_test, has_sequence_type};
use expr_drafts::name_prefixes::NamePrefixes;
use expr_terms::Class;
use std::alloc::{AllocError, Global};
use xt_names::Shared;
use xt_syntax::{Arm, Bind, Clause, DirectAttr, Expr, Flwor, NameSource, Order, Part};

/// Whether the expression can be printed under the prefixes, in all of its parts.
/// (XPath 2.0, 3; XQuery 1.0, 3)
#[cycle(can)]
#[tactic(auto, using(crate::proofs::TokenLemmas::tokens, crate::proofs::ListLemmas::lists))]
pub fn can_be_printed(alloc: Global, prefixes: &NamePrefixes, e: &Expr) -> Result<bool, AllocError>
    ensures { IfOk result (λ can. can ≡ is_printable prefixes.now e.now) }
{
    match e {
        Expr::Int(n) => Ok(*n >= 0),
        Expr::Str(_) | Expr::Context | Expr::Root => Ok(true),
        Expr::Var(name) => has_name(alloc, prefixes, name),
        Expr::Comma(es) => can_list(alloc, prefixes, es.get().as_slice()),
        Expr::Or(es) | Expr::And(es) => can_many(alloc, prefixes, es.get().as_slice()),
        Expr::If(_, _) | Expr::Quant(_, _, _) => can_branch(alloc, prefixes, e),
        Expr::Flwor(f) => can_flow(alloc, prefixes, f),
        Expr::General(_, _, _) | Expr::Value(_, _, _) | Expr::Arith(_, _, _) => {
            can_pair(alloc, prefixes, e)
        }
        Expr::Is(_, _) | Expr::Before(_, _) | Expr::After(_, _) | Expr::Range(_, _) => {
            can_pair(alloc, prefixes, e)
        }
        Expr::Union(_, _) | Expr::Intersect(_, _) | Expr::Except(_, _) | Expr::Slash(_, _) => {
            can_pair(alloc, prefixes, e)
        }
        Expr::Minus(a) | Expr::Plus(a) | Expr::DocC(a) | Expr::TextC(a) | Expr::CommentC(a) => {
            can_be_printed(alloc, prefixes, a.get())
        }
        Expr::InstanceOf(_, _) | Expr::Treat(_, _) => can_typed(alloc, prefixes, e),
        Expr::Castable(_, _, _) | Expr::Cast(_, _, _) => can_typed(alloc, prefixes, e),
        Expr::Step(_, _, _) | Expr::Filter(_, _) | Expr::Call(_, _) => can_step(alloc, prefixes, e),
        _ => can_constructor(alloc, prefixes, e),
    }
}

/// A conditional or a quantified expression.
#[cycle(can)]
#[tactic(auto, using(crate::proofs::TokenLemmas::tokens, crate::proofs::ListLemmas::lists))]
fn can_branch(alloc: Global, prefixes: &NamePrefixes, e: &Expr) -> Result<bool, AllocError>
    requires { is_branch e.now ≡ true }
    ensures { IfOk result (λ can. can ≡ is_printable prefixes.now e.now) }
{
    match e {
        Expr::If(arms, other) => {
            Ok(
                has_arms(arms.get().as_slice())
                    && (can_arms(alloc, prefixes, arms.get().as_slice())?
                        && (can_be_printed(alloc, prefixes, other.get())?
                            && !is_if(prefixes, other.get()))),
            )
        }
        Expr::Quant(_, binds, test) => {
            Ok(
                has_binds(binds.get().as_slice())
                    && (can_binds(alloc, prefixes, binds.get().as_slice())?
                        && can_be_printed(alloc, prefixes, test.get())?),
            )
        }
        _ => unreachable!(),
    }
}

/// Two operands.
#[cycle(can)]
#[tactic(auto, using(crate::proofs::TokenLemmas::tokens, crate::proofs::ListLemmas::lists))]
fn can_pair(alloc: Global, prefixes: &NamePrefixes, e: &Expr) -> Result<bool, AllocError>
    requires { is_pair e.now ≡ true }
    ensures { IfOk result (λ can. can ≡ is_printable prefixes.now e.now) }
{
    match e {
        Expr::General(_, a, b)
        | Expr::Value(_, a, b)
        | Expr::Arith(_, a, b)
        | Expr::Is(a, b)
        | Expr::Before(a, b)
        | Expr::After(a, b)
        | Expr::Range(a, b)
        | Expr::Union(a, b)
        | Expr::Intersect(a, b)
        | Expr::Except(a, b)
        | Expr::Slash(a, b) => {
            Ok(
                can_be_printed(alloc, prefixes, a.get())?
                    && can_be_printed(alloc, prefixes, b.get())?,
            )
        }
        _ => unreachable!(),
    }
}

/// An operator on a type.
#[cycle(can)]
#[tactic(auto, using(crate::proofs::TokenLemmas::tokens, crate::proofs::ListLemmas::lists))]
fn can_typed(alloc: Global, prefixes: &NamePrefixes, e: &Expr) -> Result<bool, AllocError>
    requires { is_typed e.now ≡ true }
    ensures { IfOk result (λ can. can ≡ is_printable prefixes.now e.now) }
{
    match e {
        Expr::InstanceOf(a, kind) | Expr::Treat(a, kind) => {
            Ok(
                can_be_printed(alloc, prefixes, a.get())?
                    && has_sequence_type(alloc, prefixes, kind)?,
            )
        }
        Expr::Castable(a, kind, _) | Expr::Cast(a, kind, _) => {
            Ok(can_be_printed(alloc, prefixes, a.get())? && has_type(alloc, prefixes, *kind)?)
        }
        _ => unreachable!(),
    }
}

/// A step, a filter or a call.
#[cycle(can)]
#[tactic(auto, using(crate::proofs::TokenLemmas::tokens, crate::proofs::ListLemmas::lists))]
fn can_step(alloc: Global, prefixes: &NamePrefixes, e: &Expr) -> Result<bool, AllocError>
    requires { is_step e.now ≡ true }
    ensures { IfOk result (λ can. can ≡ is_printable prefixes.now e.now) }
{
    match e {
        Expr::Step(on, test, es) => {
            Ok(
                has_node_test(alloc, prefixes, *on, test)?
                    && can_each(alloc, prefixes, es.get().as_slice())?,
            )
        }
        Expr::Filter(of, es) => {
            Ok(
                has_tests(es.get().as_slice())
                    && (can_be_printed(alloc, prefixes, of.get())?
                        && can_each(alloc, prefixes, es.get().as_slice())?),
            )
        }
        Expr::Call(name, es) => {
            Ok(has_call(alloc, prefixes, name)? && can_each(alloc, prefixes, es.get().as_slice())?)
        }
        _ => unreachable!(),
    }
}

/// A constructor that has a name.
#[cycle(can)]
#[tactic(auto, using(crate::proofs::TokenLemmas::tokens, crate::proofs::ListLemmas::lists))]
fn can_constructor(alloc: Global, prefixes: &NamePrefixes, e: &Expr) -> Result<bool, AllocError>
    requires { is_named_constructor e.now ≡ true }
    ensures { IfOk result (λ can. can ≡ is_printable prefixes.now e.now) }
{
    match e {
        Expr::ElemC(name, a) => {
            Ok(
                can_element_name(alloc, prefixes, name)?
                    && can_be_printed(alloc, prefixes, a.get())?,
            )
        }
        Expr::AttrC(name, a) => {
            Ok(
                can_bare_name(alloc, prefixes, Class::Name, name)?
                    && can_be_printed(alloc, prefixes, a.get())?,
            )
        }
        Expr::PiC(name, a) => {
            Ok(
                can_bare_name(alloc, prefixes, Class::Word, name)?
                    && can_be_printed(alloc, prefixes, a.get())?,
            )
        }
        Expr::Direct(name, attrs, parts) => {
            Ok(
                has_front(alloc, prefixes, name)?
                    && (can_attrs(alloc, prefixes, attrs.get().as_slice())?
                        && can_parts(alloc, prefixes, false, parts.get().as_slice())?),
            )
        }
        _ => unreachable!(),
    }
}

#[cycle(can)]
fn can_each(alloc: Global, prefixes: &NamePrefixes, es: &[Expr]) -> Result<bool, AllocError>
    ensures { IfOk result (λ can. can ≡ all_can (map (form_of prefixes.now) es.now)) }
{
    for e in es {
        if !can_be_printed(alloc, prefixes, e)? {
            return Ok(false);
        }
    }
    Ok(true)
}

/// A comma list: of no item, or of several.
#[cycle(can)]
#[tactic(auto, using(crate::proofs::ListLemmas::lists))]
fn can_list(alloc: Global, prefixes: &NamePrefixes, es: &[Expr]) -> Result<bool, AllocError>
    ensures { IfOk result (λ can. can ≡ not_one (map (form_of prefixes.now) es.now)) }
{
    match es {
        [_] => Ok(false),
        _ => can_each(alloc, prefixes, es),
    }
}

/// `or` or `and`, of two operands or more.
#[cycle(can)]
#[tactic(auto, using(crate::proofs::ListLemmas::lists))]
fn can_many(alloc: Global, prefixes: &NamePrefixes, es: &[Expr]) -> Result<bool, AllocError>
    ensures { IfOk result (λ can. can ≡ several (map (form_of prefixes.now) es.now)) }
{
    match es {
        [] => Ok(false),
        [_] => Ok(false),
        _ => can_each(alloc, prefixes, es),
    }
}

#[cycle(can)]
fn can_arms(alloc: Global, prefixes: &NamePrefixes, arms: &[Arm]) -> Result<bool, AllocError>
    ensures { IfOk result (λ can. can ≡ arms_can (map (arm_form prefixes.now) arms.now)) }
{
    for arm in arms {
        let test = can_be_printed(alloc, prefixes, arm.test.get())?;
        if !test {
            return Ok(false);
        }
        let then = can_be_printed(alloc, prefixes, arm.then.get())?;
        if !then {
            return Ok(false);
        }
    }
    Ok(true)
}

#[cycle(can)]
fn can_binds(alloc: Global, prefixes: &NamePrefixes, binds: &[Bind]) -> Result<bool, AllocError>
    ensures { IfOk result (λ can. can ≡ binds_can (map (bind_form prefixes.now) binds.now)) }
{
    for bind in binds {
        if !can_bind(alloc, prefixes, bind)? {
            return Ok(false);
        }
    }
    Ok(true)
}

#[cycle(can)]
#[tactic(auto, using(crate::proofs::TokenLemmas::tokens))]
fn can_bind(alloc: Global, prefixes: &NamePrefixes, bind: &Bind) -> Result<bool, AllocError>
    ensures { IfOk result (λ can. can ≡ bind_can (bind_form prefixes.now bind.now)) }
{
    let name = has_name(alloc, prefixes, &bind.var)?;
    let kind = has_kind(alloc, prefixes, &bind.kind)?;
    let source = can_be_printed(alloc, prefixes, bind.source.get())?;
    Ok(name && (kind && source))
}

/// A FLWOR expression, with clauses, and stable with orders alone.
#[cycle(can)]
#[tactic(auto, using(crate::proofs::ListLemmas::lists))]
fn can_flow(alloc: Global, prefixes: &NamePrefixes, f: &Flwor) -> Result<bool, AllocError>
    ensures { IfOk result (λ can. can ≡ (flwor_form prefixes.now f.now).can) }
{
    let some = has_clauses(f.clauses.get().as_slice());
    let clauses = can_clauses(alloc, prefixes, f.clauses.get().as_slice())?;
    let test = can_where(alloc, prefixes, &f.test)?;
    let orders = can_orders(alloc, prefixes, f.orders.get().as_slice())?;
    let steady = is_settled(f.stable, f.orders.get().as_slice());
    let body = can_be_printed(alloc, prefixes, f.body.get())?;
    Ok(some && (clauses && (test && (orders && (steady && body)))))
}

#[cycle(can)]
fn can_clauses(
    alloc: Global,
    prefixes: &NamePrefixes,
    clauses: &[Clause],
) -> Result<bool, AllocError>
    ensures { IfOk result (λ can. can
        ≡ clauses_can (map (clause_form prefixes.now) clauses.now)) }
{
    for clause in clauses {
        if !can_clause(alloc, prefixes, clause)? {
            return Ok(false);
        }
    }
    Ok(true)
}

#[cycle(can)]
fn can_clause(alloc: Global, prefixes: &NamePrefixes, clause: &Clause) -> Result<bool, AllocError>
    ensures { IfOk result (λ can. can ≡ (clause_form prefixes.now clause.now).can) }
{
    match clause {
        Clause::For(bind, place) => {
            Ok(can_bind(alloc, prefixes, bind)? && has_place(alloc, prefixes, place)?)
        }
        Clause::Let(bind) => can_bind(alloc, prefixes, bind),
    }
}

#[cycle(can)]
fn can_where(
    alloc: Global,
    prefixes: &NamePrefixes,
    test: &Option<Shared<Expr>>,
) -> Result<bool, AllocError>
    ensures { IfOk result (λ can. can ≡ may (option_map (form_of prefixes.now) test.now)) }
{
    match test {
        None => Ok(true),
        Some(e) => can_be_printed(alloc, prefixes, e.get()),
    }
}

#[cycle(can)]
fn can_orders(alloc: Global, prefixes: &NamePrefixes, orders: &[Order]) -> Result<bool, AllocError>
    ensures { IfOk result (λ can. can ≡ orders_can (map (order_form prefixes.now) orders.now)) }
{
    for order in orders {
        if !can_be_printed(alloc, prefixes, order.key.get())? {
            return Ok(false);
        }
    }
    Ok(true)
}

#[cycle(can)]
fn can_element_name(
    alloc: Global,
    prefixes: &NamePrefixes,
    name: &NameSource,
) -> Result<bool, AllocError>
    ensures { IfOk result (λ can. can ≡ named_can class_of.Name prefixes.now.bound
        prefixes.now.element_default (name_form prefixes.now name.now)) }
{
    match name {
        NameSource::Fixed(name) => has_element_name(alloc, prefixes, name),
        NameSource::Computed(e) => can_be_printed(alloc, prefixes, e.get()),
    }
}

/// The name of an attribute or a processing instruction, of the class where it is given.
#[cycle(can)]
fn can_bare_name(
    alloc: Global,
    prefixes: &NamePrefixes,
    class: Class,
    name: &NameSource,
) -> Result<bool, AllocError>
    ensures { IfOk result (λ can. can
        ≡ named_can class prefixes.now.bound [] (name_form prefixes.now name.now)) }
{
    match name {
        NameSource::Fixed(name) => has_bare_name(alloc, prefixes, class, name),
        NameSource::Computed(e) => can_be_printed(alloc, prefixes, e.get()),
    }
}

#[cycle(can)]
fn can_attrs(
    alloc: Global,
    prefixes: &NamePrefixes,
    attrs: &[DirectAttr],
) -> Result<bool, AllocError>
    ensures { IfOk result (λ can. can
        ≡ attrs_can prefixes.now (map (attr_form prefixes.now) attrs.now)) }
{
    for attr in attrs {
        if !can_attr(alloc, prefixes, attr)? {
            return Ok(false);
        }
    }
    Ok(true)
}

#[cycle(can)]
fn can_attr(alloc: Global, prefixes: &NamePrefixes, attr: &DirectAttr) -> Result<bool, AllocError>
    ensures { IfOk result (λ can. can ≡ attr_can prefixes.now (attr_form prefixes.now attr.now)) }
{
    Ok(
        has_attribute(alloc, prefixes, &attr.name)?
            && can_parts(alloc, prefixes, true, attr.parts.get().as_slice())?,
    )
}

/// The parts of content, or of a value; characters do not stand beside characters.
#[cycle(can)]
fn can_parts(
    alloc: Global,
    prefixes: &NamePrefixes,
    value: bool,
    parts: &[Part],
) -> Result<bool, AllocError>
    ensures { IfOk result (λ can. can
        ≡ parts_can value (map (part_form prefixes.now) parts.now)) }
{
    let mut behind = false;
    for part in parts {
        if !can_part(alloc, prefixes, value, part)? {
            return Ok(false);
        }
        let more = is_characters(prefixes, part);
        if behind && more {
            return Ok(false);
        }
        behind = more;
    }
    Ok(true)
}

#[cycle(can)]
fn can_part(
    alloc: Global,
    prefixes: &NamePrefixes,
    value: bool,
    part: &Part,
) -> Result<bool, AllocError>
    ensures { IfOk result (λ can. can ≡ part_can value (part_form prefixes.now part.now)) }
{
    match part {
        Part::Chars(text) => Ok(can_run(value, text)),
        Part::Enclosed(e) => can_be_printed(alloc, prefixes, e.get()),
        Part::Child(e) => {
            if value {
                return Ok(false);
            }
            Ok(can_be_printed(alloc, prefixes, e.get())? && is_direct(prefixes, e.get()))
        }
    }
}
