//! What a raw value of the grammar means: the expression or the sequence type, or the code of the
//! first static rule that it breaks (XPath 2.0, 2.1.1, 2.5 and 3; XQuery 1.0, 3).
//!
//! The definitions are two folds over raw values, `value_of`, which is total, and `broken_of`, all
//! broken rules in reading order. A value is given exactly where no rule is broken, and else the
//! code of the first one.
//!
//! Example: the raw value of `p:a/$q:v` means a path where `p` and `q` are declared, and breaks
//! XPST0081 twice where neither is.
#![tactic(auto)]

mod acts;
mod families;
mod passing;
mod resolving;
mod setting;
mod wholes;

pub use families::{Family, family_of};
pub use resolving::part_of;
pub use setting::Setting;
pub use wholes::{resolve, resolve_type};
