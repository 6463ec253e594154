// Truth values.
ghost use Rattle.std.specs.Prelude.{◌≡◌};
ghost use Rattle.xdm_items.specs.Truth.{truth_of, truth_of_atom};

use crate::items::Item;
use crate::lists::ItemList;
use xt_atoms::{Atom, is_zero};
use xt_names::{Code, DynamicCode};

const NO_TRUTH: Code = Code::Dynamic(DynamicCode::FORG0006);

/// The effective boolean value (XPath 2.0, 2.4.3): false of no item, true of a list that begins with a node, and else that
/// of one boolean, text (whether it has a character) or integer (whether it is not 0). FORG0006 comes of all else.
#[tactic(auto, unfolding(crate::specs::Truth::truth_of))]
pub fn ebv(items: &ItemList) -> Result<bool, Code>
    ensures { result ≡ truth_of items.now }
{
    match items.as_slice() {
        [] => Ok(false),
        [Item::Node(_), ..] => Ok(true),
        [Item::Atom(atom)] => truth_of_atom(atom),
        _ => Err(NO_TRUTH),
    }
}

/// The truth value of one atom.
#[tactic(auto, unfolding(crate::specs::Truth::truth_of_atom))]
pub fn truth_of_atom(atom: &Atom) -> Result<bool, Code>
    ensures { result ≡ truth_of_atom atom.now }
{
    match atom {
        Atom::Str(text) | Atom::Untyped(text) => Ok(!text.is_empty()),
        Atom::Int(number) => Ok(!is_zero(*number)),
        Atom::Bool(truth) => Ok(*truth),
        Atom::QName(_) => Err(NO_TRUTH),
    }
}
