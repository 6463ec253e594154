//! Which stylesheets are closed, as far as each of their parts tells for itself: their expressions
//! are regular ones of XPath, their types are regular, and XML allows their texts and names.
//!
//! `has_good_parts` is exact: the definition of its name in `specs/Sheets.antt` goes over the parts of
//! a stylesheet, `specs/Instrs.antt` over the forms of instructions, and `specs/Forms.antt` over the
//! forms of expressions. Whether what a stylesheet names is declared in it is not told here.
//!
//! Example: a stylesheet with `<xsl:value-of select="1"/>` has good parts; one whose expression is a
//! comma list of one part, which no text spells, or a constructor of elements, which is in queries
//! alone, has not.
#![tactic(auto)]

mod forms;
mod instrs;
pub mod sheet_forms;
mod sheets;
mod values;

pub use instrs::{are_good_bounds, is_good_body, is_good_bound};
pub use sheets::has_good_parts;
pub use values::is_good_pattern;
