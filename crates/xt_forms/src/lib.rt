//! What forms expressions have: how deep they nest, and which of them are regular, plain and quiet.
//!
//! `is_regular` tells the expressions of the form that texts are meant to give, `is_plain` those of them that use XPath
//! alone, and `is_quiet` the predicates that fail on no node. Each is exact: its contract names a definition in `specs/`
//! that goes over the forms one by one. There is no grammar of texts yet, so nothing here relates the forms to texts.
//!
//! Example: `1, $x` nests 2 levels, is regular and plain, and is not quiet.
#![tactic(auto)]

mod facts;
mod laws;
mod named_texts;
mod nesting;
mod plainness;
mod quiet_calls;
mod quiet_forms;
mod quietness;
mod regular_parts;
mod regularity;

pub use laws::{a_whole_nests_one_more_than_its_parts, plain_and_quiet_expressions_are_regular};
pub use nesting::{nest, nest_pattern};
pub use plainness::is_plain;
pub use quiet_calls::{QuietCall, quiet_call};
pub use quiet_forms::QuietForm;
pub use quietness::is_quiet;
pub use regularity::is_regular;
