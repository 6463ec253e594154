//! The options of a prolog that have an effect of this project's own (XQuery 1.0, 4.16): `space`
//! and `declaration` in the namespace `urn:xslt2xq`. All others are passed over.
//!
//! The text of `space` is a list of pairs, each of which is `strip` or `preserve` and a name test:
//! of which elements white space is stripped. The text of `declaration` is `omit`. Each of the two
//! may stand once.
//!
//! Example: `strip * preserve p:a` is a text of `space` where `p` is declared, and `strip` is none.
#![tactic(auto)]

mod effects;
mod options;
mod rules;
mod tests_of_words;
mod words;

pub use effects::{Effect, effect_of};
pub use expr_rules;
pub use options::{Options, no_options, with_option};
pub use rules::space_rules;
pub use tests_of_words::written_test;
pub use words::words_of;
