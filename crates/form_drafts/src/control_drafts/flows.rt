// FLWOR expressions on a draft.
ghost use Rattle.std.specs.Prelude.{◌≡◌, ◌≤◌, false, length, map, option_map, OnOk};
ghost use Rattle.xt_syntax.specs.declared.prefixes.Prefixes.{Prefixes as PrefixesOf};
ghost use Rattle.expr_raws.specs.PathRaws.Forms.{single, said};
ghost use Rattle.expr_raws.specs.ControlRaws.Bindings.{clauses_tokens, keys_tokens, way_tokens};
ghost use Rattle.expr_raws.specs.ControlRaws.Bindings.{where_tokens, order_tokens, clause_tokens};
ghost use Rattle.expr_raws.specs.Raws.{form_of};
ghost use Rattle.expr_drafts.specs.ExprPlaces.Forms.{clause_form, order_form, flwor_form};
ghost use Rattle.form_drafts.specs.ControlDrafts.Clauses.{joins_at};

use crate::control_drafts::control::push_bind;
use expr_drafts::expr_places::SINGLE;
use expr_drafts::name_prefixes::NamePrefixes;
use expr_drafts::{Draft, Spot, push_comma};
use expr_terms::Key;
use query_pages::Gap;
use std::alloc::{AllocError, Global};
use xt_names::Shared;
use xt_syntax::{Clause, Expr, Flwor, Order};

fn is_loop(clause: &Clause) -> bool
    ensures { (p : PrefixesOf) → result ≡ (clause_form p clause.now).loops }
{
    match clause {
        Clause::For(_, _) => true,
        Clause::Let(_) => false,
    }
}

/// Whether the clause before the place is of `for`.
fn joins(clauses: &[Clause], place: usize) -> bool
    requires { place ≤ length clauses.now }
    ensures { (p : PrefixesOf) → result ≡ joins_at p clauses.now place }
{
    if place == 0 {
        return false;
    }
    is_loop(&clauses[place - 1])
}

/// Clauses, `where`, `order by` and what is returned.
pub fn push_flwor<'a>(
    alloc: Global,
    draft: &mut Draft<'a>,
    prefixes: &'a NamePrefixes,
    at: Spot,
    f: &'a Flwor,
) -> Result<(), AllocError>
    ensures { OnOk result (draft.new ≡ (flwor_form prefixes.now f.now).tokens draft.old) }
{
    draft.push_part(prefixes, at.part(), SINGLE, f.body.get())?;
    draft.push_key(at.line(), Key::ReturnWord)?;
    push_orders(draft, prefixes, at, f.stable, f.orders.get().as_slice())?;
    push_where(draft, prefixes, at, &f.test)?;
    push_clauses(alloc, draft, prefixes, at, f.clauses.get().as_slice())
}

/// `where a`, where there is a test.
fn push_where<'a>(
    draft: &mut Draft<'a>,
    prefixes: &'a NamePrefixes,
    at: Spot,
    test: &'a Option<Shared<Expr>>,
) -> Result<(), AllocError>
    ensures { OnOk result (draft.new
        ≡ where_tokens (option_map (form_of prefixes.now) test.now) draft.old) }
{
    match test {
        None => Ok(()),
        Some(test) => {
            draft.push_part(prefixes, at.part(), SINGLE, test.get())?;
            draft.push_key(at.line(), Key::WhereWord)
        }
    }
}

/// `order by` with its keys, where there are some.
fn push_orders<'a>(
    draft: &mut Draft<'a>,
    prefixes: &'a NamePrefixes,
    at: Spot,
    stable: bool,
    orders: &'a [Order],
) -> Result<(), AllocError>
    ensures { OnOk result (draft.new
        ≡ order_tokens stable (map (order_form prefixes.now) orders.now) draft.old) }
{
    match orders {
        [] => Ok(()),
        _ => {
            push_keys(draft, prefixes, at, orders)?;
            draft.push_key(Gap::Space, Key::ByWord)?;
            if stable {
                draft.push_key(Gap::Space, Key::OrderWord)?;
                return draft.push_key(at.line(), Key::StableWord);
            }
            draft.push_key(at.line(), Key::OrderWord)
        }
    }
}

/// The keys, with commas between them.
fn push_keys<'a>(
    draft: &mut Draft<'a>,
    prefixes: &'a NamePrefixes,
    at: Spot,
    orders: &'a [Order],
) -> Result<(), AllocError>
    ensures { OnOk result (draft.new
        ≡ keys_tokens (map (order_form prefixes.now) orders.now) draft.old) }
{
    let mut left = orders.len();
    while left > 0 {
        left -= 1;
        push_comma(draft, left, orders.len())?;
        push_order(draft, prefixes, at, &orders[left])?;
    }
    Ok(())
}

/// A key, and `descending`.
fn push_order<'a>(
    draft: &mut Draft<'a>,
    prefixes: &'a NamePrefixes,
    at: Spot,
    order: &'a Order,
) -> Result<(), AllocError>
    ensures { let o = order_form prefixes.now order.now in OnOk result
        (draft.new ≡ said single o.key (way_tokens o.descending draft.old)) }
{
    if order.descending {
        draft.push_key(Gap::Space, Key::DescendingWord)?;
        return draft.push_part(prefixes, at.part(), SINGLE, order.key.get());
    }
    draft.push_part(prefixes, at.part(), SINGLE, order.key.get())
}

/// The variables of `for` and `let`; those of `for` that follow one another come after one
/// word.
fn push_clauses<'a>(
    alloc: Global,
    draft: &mut Draft<'a>,
    prefixes: &'a NamePrefixes,
    at: Spot,
    clauses: &'a [Clause],
) -> Result<(), AllocError>
    ensures { OnOk result (draft.new
        ≡ clauses_tokens false (map (clause_form prefixes.now) clauses.now) draft.old) }
{
    let mut left = clauses.len();
    while left > 0 {
        left -= 1;
        let joined = joins(clauses, left);
        push_clause(
            alloc,
            draft,
            prefixes,
            at.clause(left),
            joined,
            &clauses[left],
        )?;
    }
    Ok(())
}

/// A variable of `for` or `let` after its word, or after a comma where it joins the one
/// before.
fn push_clause<'a>(
    alloc: Global,
    draft: &mut Draft<'a>,
    prefixes: &'a NamePrefixes,
    at: Spot,
    joined: bool,
    clause: &'a Clause,
) -> Result<(), AllocError>
    ensures { OnOk result (draft.new
        ≡ clause_tokens joined (clause_form prefixes.now clause.now) draft.old) }
{
    match clause {
        Clause::For(bind, place) => {
            if joined {
                push_bind(
                    alloc,
                    draft,
                    prefixes,
                    at.joined(),
                    place,
                    Key::InWord,
                    bind,
                )?;
                return draft.push_key(Gap::Space, Key::Comma);
            }
            push_bind(alloc, draft, prefixes, at.part(), place, Key::InWord, bind)?;
            draft.push_key(at.first, Key::ForWord)
        }
        Clause::Let(bind) => {
            push_bind(alloc, draft, prefixes, at.part(), &None, Key::Assign, bind)?;
            draft.push_key(at.first, Key::LetWord)
        }
    }
}
