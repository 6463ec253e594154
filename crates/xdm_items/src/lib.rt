//! Items, the members of the lists that expressions give: a node or an atom.
//!
//! Contracts see an item as the place of its node or as its atom, and two items are one where these are. `atomize` gives
//! the typed value of each item; the definitions `string_value_of` and `atomized` say what that is. `ebv` is the truth
//! value of a list, `matches` tells whether it has a sequence type, and `convert` makes it a value of the type, by the
//! function conversion rules.
//!
//! Example: of the list of the element `<a>x</a>` and the integer 1 `atomize` makes the untyped atom `x` and the
//! integer 1.
#![tactic(auto)]

mod conversions;
pub mod function_arguments;
mod items;
mod lists;
mod matching;
mod truths;
mod values;

pub use conversions::convert;
pub use items::Item;
pub use lists::{HeldItems, ItemList, copy_item_list};
pub use matching::{has_atom_type, matches, matches_item};
pub use node_tests::xt_tree;
pub use truths::{ebv, truth_of_atom};
pub use values::{atomize, typed_value};
