//! What the elements of a stylesheet say by their attributes, apart from the instructions that they
//! hold (XSLT 2.0, 5.7 to 14): instructions without content, and the heads of those that hold a
//! sequence constructor, of bindings, and of what passes parameters.
//!
//! Each call gives the value exactly where no rule is broken, and else the code of the first one:
//! first those of the table of elements, then those of the element, then those of its texts in the
//! order in which the contract names them. What texts mean is the reader's.
//!
//! Example: the head of `<xsl:for-each select="a"><xsl:sort order="descending"/>..` is `a` with one
//! sort key, which is what the reader reads of `.`, in descending order; `<xsl:comment
//! select="a">b` breaks XTSE0940.
#![tactic(auto, using(expr_names::proofs::Follow::fault_first, expr_names::proofs::Follow::fault_next))]

mod attributes;
mod bindings;
mod bodied;
mod calls;
mod forms;
mod groupings;
mod leaves;
mod literals;
mod parts;
mod repeats;
mod sorts;
mod texts;

pub use attributes::{
    needed_expr, needed_template, optional_expr, optional_template, optional_type,
};
pub use bindings::{BoundHead, bound_head, is_yes, needed_name, with_value};
pub use bodied::{Head, read_head, with_body};
pub use calls::{CallHead, call_head, with_passed};
pub use forms::{Form, form_of};
pub use leaves::leaf;
pub use literals::literal_head;
pub use parts::{default_uri, refuse_if};
pub use repeats::check_repeats;
pub use sheet_values;
pub use sorts::sort_keys;
pub use texts::characters;
