//! Atoms, the values without nodes, with their casts, comparisons and arithmetic.
//!
//! Contracts see an atom as its kind with a list of characters, an integer, a truth value or a name, so that two atoms
//! are one where kind and value are; of a QName the prefix counts too. `text_of` is the text of an atom.
//! `cast`, `castable`, `to_text`, `value_compare`, `general_compare`, `arith`, `key_same` and
//! `sort_class` give exactly what the definitions of `specs/` say, error codes and order of tests included.
//!
//! Example: `Atom::Int(1)` and the untyped atom `01` are equal to `general_compare`, and not comparable to
//! `value_compare`, which takes the untyped one as a text.
#![tactic(auto)]

mod arithmetic;
mod atom_texts;
mod atoms;
mod casts;
mod comparisons;
mod faults;
mod keys;
mod laws;
mod lexical;
mod trims;

pub use arithmetic::{arith, integer_operand};
pub use atom_texts::{qname_text, to_text};
pub use atoms::{Atom, copy_atom_list};
pub use casts::{boolean_from, cast, castable, integer_from, is_zero};
pub use comparisons::{general_compare, holds, same_name, text_order, value_compare};
pub use faults::ValueFault;
pub use keys::{SortClass, key_same, sort_class};
pub use laws::integers_are_read_back;
pub use lexical::{boolean_of, integer_of};
pub use trims::trimmed;
