// Comparisons of sequences of atoms.
ghost use Rattle.std.specs.Prelude.{◌≡◌, ◌∷◌, [], map};
ghost use Rattle.xt_atoms.specs.Casts.{Answers};
ghost use Rattle.operator_values.specs.Operands.{atom_of};
ghost use Rattle.operator_values.specs.Comparisons.{compares_with_some, some_compare};
ghost use Rattle.operator_values.specs.Comparisons.{general_value, single_value};

use crate::operands::{atom_of, atoms_of, optional_atom};
use std::alloc::Global;
use std::slice;
use xdm_items::function_arguments::{no_items, truth_list};
use xdm_items::{Item, ItemList};
use xt_atoms::{Atom, ValueFault, general_compare, value_compare};
use xt_names::{Code, CompareOp};

/// `=`, `!=`, `<`, `<=`, `>` and `>=`: whether some atom of the left list compares so with some of
/// the right one. The first pair that does, or that fails, decides (XPath 2.0, 3.5.2).
#[tactic(auto, unfolding(crate::specs::Comparisons::general_value))]
pub fn general(
    alloc: Global,
    op: CompareOp,
    left: &ItemList,
    right: &ItemList,
) -> Result<ItemList, ValueFault>
    ensures { Answers (general_value op left.now right.now) result }
{
    let truth = match right.as_slice() {
        [only] => compare_with_one(alloc, op, left.as_slice(), only)?,
        items => {
            let atoms = atoms_of(alloc, items)?;
            some_compare(alloc, op, left.as_slice(), atoms.as_slice())?
        }
    };
    Ok(truth_list(alloc, truth)?)
}

/// The same with one item on the right, which is most often so: no list is made of it.
fn compare_with_one(
    alloc: Global,
    op: CompareOp,
    left: &[Item],
    only: &Item,
) -> Result<bool, ValueFault>
    ensures { Answers (some_compare op (map atom_of left.now) (atom_of only.now ∷ [])) result }
{
    let atom = atom_of(alloc, only)?;
    let truth = some_compare(alloc, op, left, slice::from_ref(&atom));
    drop(atom);
    truth
}

fn some_compare(
    alloc: Global,
    op: CompareOp,
    left: &[Item],
    right: &[Atom],
) -> Result<bool, ValueFault>
    ensures { Answers (some_compare op (map atom_of left.now) right.now) result }
{
    for item in left {
        let atom = atom_of(alloc, item)?;
        match compares_with_some(op, &atom, right) {
            Ok(true) => return Ok(true),
            Ok(false) => {}
            Err(code) => return Err(ValueFault::Error(code)),
        }
    }
    Ok(false)
}

fn compares_with_some(op: CompareOp, atom: &Atom, others: &[Atom]) -> Result<bool, Code>
    ensures { result ≡ compares_with_some op atom.now others.now }
{
    for other in others {
        if general_compare(op, atom, other)? {
            return Ok(true);
        }
    }
    Ok(false)
}

/// `eq`, `ne`, `lt`, `le`, `gt` and `ge`: whether the one atom compares so with the other; empty
/// where an operand is. An operand of two items and atoms that have no order fail with XPTY0004
/// (XPath 2.0, 3.5.1).
#[tactic(auto, unfolding(crate::specs::Comparisons::single_value))]
pub fn single(
    alloc: Global,
    op: CompareOp,
    left: &ItemList,
    right: &ItemList,
) -> Result<ItemList, ValueFault>
    ensures { Answers (single_value op left.now right.now) result }
{
    let left = optional_atom(alloc, left.as_slice())?;
    let right = optional_atom(alloc, right.as_slice())?;
    match (left, right) {
        (Some(a), Some(b)) => match value_compare(op, &a, &b) {
            Ok(truth) => Ok(truth_list(alloc, truth)?),
            Err(code) => Err(ValueFault::Error(code)),
        },
        _ => Ok(no_items(alloc)),
    }
}
