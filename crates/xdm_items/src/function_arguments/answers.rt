// Lists of one value.
ghost use Rattle.std.specs.Prelude.{◌≡◌, ◌∷◌, [], IfOk};
ghost use Rattle.xdm_items.specs.declared.items.Item.TheVariants.{Atom as as_atom};
ghost use Rattle.xdm_items.specs.FunctionArguments.Answers.{of_text, of_integer, of_truth, of_optional_text};

use crate::{Item, ItemList};
use std::alloc::{AllocError, Global};
use xt_atoms::Atom;
use xt_names::Text;

/// The list without items, which takes no memory.
pub fn no_items(alloc: Global) -> ItemList
    ensures { result ≡ [] }
{
    ItemList::new(alloc)
}

/// The list of the text, as an xs:string.
pub fn text_list(alloc: Global, text: Text) -> Result<ItemList, AllocError>
    ensures { IfOk result (λ items. items ≡ of_text text) }
{
    atom_list(alloc, Atom::Str(text))
}

/// The list of the text, if there is one.
pub fn optional_text_list(alloc: Global, text: Option<Text>) -> Result<ItemList, AllocError>
    ensures { IfOk result (λ items. items ≡ of_optional_text text) }
{
    match text {
        Some(text) => text_list(alloc, text),
        None => Ok(no_items(alloc)),
    }
}

/// The list of the integer.
pub fn integer_list(alloc: Global, number: i64) -> Result<ItemList, AllocError>
    ensures { IfOk result (λ items. items ≡ of_integer number) }
{
    atom_list(alloc, Atom::Int(number))
}

/// The list of the truth value.
pub fn truth_list(alloc: Global, truth: bool) -> Result<ItemList, AllocError>
    ensures { IfOk result (λ items. items ≡ of_truth truth) }
{
    atom_list(alloc, Atom::Bool(truth))
}

/// The list of the atom.
pub fn atom_list(alloc: Global, atom: Atom) -> Result<ItemList, AllocError>
    ensures { IfOk result (λ items. items ≡ as_atom atom ∷ []) }
{
    Ok(ItemList::one(alloc, Item::Atom(atom)))
}
