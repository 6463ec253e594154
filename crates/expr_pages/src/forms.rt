// The tokens of an expression, by its form.
ghost use Rattle.std.specs.Prelude.{◌≡◌, true, OnOk};
ghost use Rattle.expr_raws.specs.Raws.{form_of};
ghost use Rattle.expr_pages.specs.Families.{is_leaf, is_control, is_comparison, is_combination};
ghost use Rattle.expr_pages.specs.Families.{has_one_operand, is_constructor};

use crate::element_drafts::{
    push_attribute, push_direct, push_element, push_enclosing, push_instruction,
};
use expr_drafts::expr_places::{compare_key, value_key};
use expr_drafts::name_prefixes::NamePrefixes;
use expr_drafts::{Draft, Spot};
use expr_terms::{Key, Level, Token};
use form_drafts::control_drafts::{push_flwor, push_if, push_quant};
use form_drafts::leaf_pages::push_var;
use form_drafts::operator_drafts::{
    push_arithmetic, push_call, push_cast, push_castable, push_chained, push_comparison,
    push_filter, push_instance, push_list, push_many, push_range, push_root, push_signed,
    push_slash, push_step, push_treat,
};
use std::alloc::{AllocError, Global};
use xt_syntax::Expr;

fn push_leaf<'a>(
    alloc: Global,
    draft: &mut Draft<'a>,
    prefixes: &'a NamePrefixes,
    at: Spot,
    e: &'a Expr,
) -> Result<(), AllocError>
    requires { is_leaf e.now ≡ true }
    ensures { OnOk result (draft.new ≡ (form_of prefixes.now e.now).tokens draft.old) }
{
    match e {
        Expr::Int(n) => draft.push(at.first, Token::Digits(*n)),
        Expr::Str(text) => draft.push(at.first, Token::Quoted(text.copy()?)),
        Expr::Var(n) => push_var(alloc, draft, prefixes, at.first, n),
        Expr::Context => draft.push_key(at.first, Key::Dot),
        Expr::Root => push_root(draft, at.first),
        _ => unreachable!(),
    }
}

/// `or`, `and`, a conditional, or an expression that binds variables.
fn push_control<'a>(
    alloc: Global,
    draft: &mut Draft<'a>,
    prefixes: &'a NamePrefixes,
    at: Spot,
    e: &'a Expr,
) -> Result<(), AllocError>
    requires { is_control e.now ≡ true }
    ensures { OnOk result (draft.new ≡ (form_of prefixes.now e.now).tokens draft.old) }
{
    match e {
        Expr::Or(es) => {
            let key = Key::OrWord;
            push_many(draft, prefixes, at, Level::Or, key, es.get().as_slice())
        }
        Expr::And(es) => {
            let key = Key::AndWord;
            push_many(draft, prefixes, at, Level::And, key, es.get().as_slice())
        }
        Expr::If(arms, other) => push_if(draft, prefixes, at, arms.get().as_slice(), other.get()),
        Expr::Flwor(f) => push_flwor(alloc, draft, prefixes, at, f),
        Expr::Quant(every, bs, test) => {
            let bs = bs.get().as_slice();
            push_quant(alloc, draft, prefixes, at, *every, bs, test.get())
        }
        _ => unreachable!(),
    }
}

fn push_compared<'a>(
    draft: &mut Draft<'a>,
    prefixes: &'a NamePrefixes,
    at: Spot,
    e: &'a Expr,
) -> Result<(), AllocError>
    requires { is_comparison e.now ≡ true }
    ensures { OnOk result (draft.new ≡ (form_of prefixes.now e.now).tokens draft.old) }
{
    match e {
        Expr::General(op, a, b) => {
            push_comparison(draft, prefixes, at, compare_key(*op), a.get(), b.get())
        }
        Expr::Value(op, a, b) => {
            push_comparison(draft, prefixes, at, value_key(*op), a.get(), b.get())
        }
        Expr::Is(a, b) => push_comparison(draft, prefixes, at, Key::IsWord, a.get(), b.get()),
        Expr::Before(a, b) => push_comparison(draft, prefixes, at, Key::Before, a.get(), b.get()),
        Expr::After(a, b) => push_comparison(draft, prefixes, at, Key::After, a.get(), b.get()),
        _ => unreachable!(),
    }
}

/// Two operands that are numbers, nodes or a path.
fn push_combined<'a>(
    draft: &mut Draft<'a>,
    prefixes: &'a NamePrefixes,
    at: Spot,
    e: &'a Expr,
) -> Result<(), AllocError>
    requires { is_combination e.now ≡ true }
    ensures { OnOk result (draft.new ≡ (form_of prefixes.now e.now).tokens draft.old) }
{
    match e {
        Expr::Range(a, b) => push_range(draft, prefixes, at, a.get(), b.get()),
        Expr::Arith(op, a, b) => push_arithmetic(draft, prefixes, at, *op, a.get(), b.get()),
        Expr::Union(a, b) => {
            let key = Key::UnionWord;
            push_chained(draft, prefixes, at, Level::Union, key, a.get(), b.get())
        }
        Expr::Intersect(a, b) => {
            let key = Key::IntersectWord;
            push_chained(draft, prefixes, at, Level::Intersect, key, a.get(), b.get())
        }
        Expr::Except(a, b) => {
            let key = Key::ExceptWord;
            push_chained(draft, prefixes, at, Level::Intersect, key, a.get(), b.get())
        }
        Expr::Slash(a, b) => push_slash(draft, prefixes, at, a.get(), b.get()),
        _ => unreachable!(),
    }
}

/// A sign, or an operator on a type.
fn push_one<'a>(
    alloc: Global,
    draft: &mut Draft<'a>,
    prefixes: &'a NamePrefixes,
    at: Spot,
    e: &'a Expr,
) -> Result<(), AllocError>
    requires { has_one_operand e.now ≡ true }
    ensures { OnOk result (draft.new ≡ (form_of prefixes.now e.now).tokens draft.old) }
{
    match e {
        Expr::Minus(a) => push_signed(draft, prefixes, at, Key::Minus, a.get()),
        Expr::Plus(a) => push_signed(draft, prefixes, at, Key::Plus, a.get()),
        Expr::InstanceOf(a, kind) => push_instance(alloc, draft, prefixes, at, a.get(), kind),
        Expr::Treat(a, kind) => push_treat(alloc, draft, prefixes, at, a.get(), kind),
        Expr::Castable(a, kind, empty) => {
            push_castable(alloc, draft, prefixes, at, a.get(), *kind, *empty)
        }
        Expr::Cast(a, kind, empty) => {
            push_cast(alloc, draft, prefixes, at, a.get(), *kind, *empty)
        }
        _ => unreachable!(),
    }
}

fn push_constructor<'a>(
    alloc: Global,
    draft: &mut Draft<'a>,
    prefixes: &'a NamePrefixes,
    at: Spot,
    e: &'a Expr,
) -> Result<(), AllocError>
    requires { is_constructor e.now ≡ true }
    ensures { OnOk result (draft.new ≡ (form_of prefixes.now e.now).tokens draft.old) }
{
    match e {
        Expr::ElemC(name, a) => push_element(alloc, draft, prefixes, at, name, a.get()),
        Expr::AttrC(name, a) => push_attribute(alloc, draft, prefixes, at, name, a.get()),
        Expr::PiC(name, a) => push_instruction(alloc, draft, prefixes, at, name, a.get()),
        Expr::DocC(a) => push_enclosing(draft, prefixes, at, Key::DocumentWord, a.get()),
        Expr::TextC(a) => push_enclosing(draft, prefixes, at, Key::TextWord, a.get()),
        Expr::CommentC(a) => push_enclosing(draft, prefixes, at, Key::CommentWord, a.get()),
        Expr::Direct(name, attrs, parts) => {
            let attrs = attrs.get().as_slice();
            let parts = parts.get().as_slice();
            push_direct(alloc, draft, prefixes, at, name, attrs, parts)
        }
        _ => unreachable!(),
    }
}

/// Puts the tokens of the expression before those of the draft; its parts are put as they are.
/// (XPath 2.0, A; XQuery 1.0, A)
pub(crate) fn push_form<'a>(
    alloc: Global,
    draft: &mut Draft<'a>,
    prefixes: &'a NamePrefixes,
    at: Spot,
    e: &'a Expr,
) -> Result<(), AllocError>
    ensures { OnOk result (draft.new ≡ (form_of prefixes.now e.now).tokens draft.old) }
{
    match e {
        Expr::Int(_) | Expr::Str(_) | Expr::Var(_) | Expr::Context | Expr::Root => {
            push_leaf(alloc, draft, prefixes, at, e)
        }
        Expr::Comma(es) => push_list(draft, prefixes, at, es.get().as_slice()),
        Expr::Step(on, test, es) => {
            push_step(alloc, draft, prefixes, at, *on, test, es.get().as_slice())
        }
        Expr::Filter(of, es) => push_filter(draft, prefixes, at, of.get(), es.get().as_slice()),
        Expr::Call(name, es) => push_call(alloc, draft, prefixes, at, name, es.get().as_slice()),
        Expr::Or(_) | Expr::And(_) | Expr::If(_, _) | Expr::Flwor(_) | Expr::Quant(_, _, _) => {
            push_control(alloc, draft, prefixes, at, e)
        }
        Expr::General(_, _, _) | Expr::Value(_, _, _) => push_compared(draft, prefixes, at, e),
        Expr::Is(_, _) | Expr::Before(_, _) | Expr::After(_, _) => {
            push_compared(draft, prefixes, at, e)
        }
        Expr::Range(_, _) | Expr::Arith(_, _, _) => push_combined(draft, prefixes, at, e),
        Expr::Union(_, _) | Expr::Intersect(_, _) | Expr::Except(_, _) | Expr::Slash(_, _) => {
            push_combined(draft, prefixes, at, e)
        }
        Expr::Minus(_) | Expr::Plus(_) => push_one(alloc, draft, prefixes, at, e),
        Expr::InstanceOf(_, _) | Expr::Treat(_, _) => push_one(alloc, draft, prefixes, at, e),
        Expr::Castable(_, _, _) | Expr::Cast(_, _, _) => push_one(alloc, draft, prefixes, at, e),
        _ => push_constructor(alloc, draft, prefixes, at, e),
    }
}
