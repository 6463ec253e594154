//! The arguments of functions, converted to the types of their parameters (XPath 2.0, 3.1.5), and lists of one value.
//!
//! There is one call a kind of parameter: a text, an integer, an atom, a QName or a node, one or at most one, and lists of
//! texts, integers and atoms. Each answers exactly what the function conversion rules give: XPTY0004 where the kind or the
//! number of items does not fit, and FORG0001 where an untyped value spells no integer.
//!
//! Example: of the attribute `a="7"` `integer` makes 7, and of `a="x"` FORG0001.

mod answers;
mod arguments;
mod conversions;
mod forms;

pub use answers::{atom_list, integer_list, no_items, optional_text_list, text_list, truth_list};
pub use arguments::{
    atom, integer, optional_atom, optional_integer, optional_name, optional_node, optional_text,
    text, text_or_empty,
};
pub use conversions::{are_atoms, atoms, integers, texts};
