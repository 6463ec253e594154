// The greatest and the least of values.
ghost use Rattle.std.specs.Prelude.{◌≡◌, option_copied};
ghost use Rattle.std.specs.List.{list_all};
ghost use Rattle.xt_atoms.specs.Casts.{Answers};
ghost use Rattle.item_functions.specs.NumberFunctions.Extremes.{best, best_in_order, best_of, extreme, have_order, is_better, is_of, operand, operands};

use crate::number_functions::sums::{WRONG_KIND, spelled_integer};
use std::alloc::Global;
use xdm_items::Item;
use xt_atoms::{Atom, SortClass, ValueFault, value_compare};
use xt_names::{CompareOp, List};

/// The greatest of the values (`fn:max`, Functions and Operators, 15.4.3); none where there is no
/// item. An untyped atom is cast to an integer first, FORG0001 where it has no such cast. Then all
/// are integers, all texts, which stand in the order of their code points, or all truth values,
/// false before true; all else is FORG0006.
pub fn max(alloc: Global, items: &[Item]) -> Result<Option<Atom>, ValueFault>
    ensures { Answers (extreme CompareOp.Gt items.now) result }
{
    extreme(alloc, CompareOp::Gt, items)
}

/// The least of the values (`fn:min`, Functions and Operators, 15.4.4), as `max` has the greatest.
pub fn min(alloc: Global, items: &[Item]) -> Result<Option<Atom>, ValueFault>
    ensures { Answers (extreme CompareOp.Lt items.now) result }
{
    extreme(alloc, CompareOp::Lt, items)
}

#[tactic(auto, unfolding(crate::specs::NumberFunctions::Extremes::extreme))]
fn extreme(alloc: Global, op: CompareOp, items: &[Item]) -> Result<Option<Atom>, ValueFault>
    ensures { Answers (extreme op items.now) result }
{
    match operands(alloc, items) {
        Ok(atoms) => best_in_order(op, atoms.as_slice()),
        Err(fault) => Err(fault),
    }
}

fn operands(alloc: Global, items: &[Item]) -> Result<List<Atom>, ValueFault>
    ensures { Answers (operands items.now) result }
{
    let mut made = List::new(alloc);
    for item in items {
        match operand(item) {
            Ok(atom) => made.push(atom)?,
            Err(fault) => return Err(fault),
        }
    }
    Ok(made)
}

#[tactic(auto, unfolding(crate::specs::NumberFunctions::Extremes::operand))]
fn operand(item: &Item) -> Result<Atom, ValueFault>
    ensures { Answers (operand item.now) result }
{
    match item {
        Item::Atom(Atom::Untyped(text)) => match spelled_integer(text) {
            Ok(number) => Ok(Atom::Int(number)),
            Err(code) => Err(ValueFault::Error(code)),
        },
        Item::Atom(atom) => Ok(atom.copy()?),
        Item::Node(_) => Err(ValueFault::Error(WRONG_KIND)),
    }
}

fn best_in_order(op: CompareOp, atoms: &[Atom]) -> Result<Option<Atom>, ValueFault>
    ensures { Answers (best_in_order op atoms.now) result }
{
    if !have_order(atoms) {
        return Err(ValueFault::Error(WRONG_KIND));
    }
    match best_of(op, atoms) {
        Some(atom) => Ok(Some(atom.copy()?)),
        None => Ok(None),
    }
}

fn have_order(atoms: &[Atom]) -> bool
    ensures { result ≡ have_order atoms.now }
{
    are_all(SortClass::Text, atoms)
        || are_all(SortClass::Int, atoms)
        || are_all(SortClass::Bool, atoms)
}

fn are_all(class: SortClass, atoms: &[Atom]) -> bool
    ensures { result ≡ list_all (is_of class) atoms.now }
{
    atoms.iter().all(|atom| is_of(class, atom))
}

#[tactic(auto, unfolding(crate::specs::NumberFunctions::Extremes::is_of))]
fn is_of(class: SortClass, atom: &Atom) -> bool
    ensures { result ≡ is_of class atom.now }
{
    match (class, atom) {
        (SortClass::Text, Atom::Str(_)) => true,
        (SortClass::Int, Atom::Int(_)) => true,
        (SortClass::Bool, Atom::Bool(_)) => true,
        _ => false,
    }
}

fn best_of(op: CompareOp, atoms: &[Atom]) -> Option<&Atom>
    ensures { option_copied result ≡ best_of op atoms.now }
{
    match atoms {
        [] => None,
        [first, rest @ ..] => Some(best(op, first, rest)),
    }
}

fn best<'a>(op: CompareOp, first: &'a Atom, rest: &'a [Atom]) -> &'a Atom
    ensures { result.now ≡ best op first.now rest.now }
{
    let mut best = first;
    for atom in rest {
        if is_better(op, best, atom) {
            best = atom;
        }
    }
    best
}

#[tactic(auto, unfolding(crate::specs::NumberFunctions::Extremes::is_better))]
fn is_better(op: CompareOp, a: &Atom, b: &Atom) -> bool
    ensures { result ≡ is_better op a.now b.now }
{
    match value_compare(op, b, a) {
        Ok(holds) => holds,
        Err(_) => false,
    }
}
