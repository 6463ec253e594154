//! What a stylesheet of the first form is, and what it makes of a document.
//!
//! The definitions are for contracts: `First.is_first_sheet` says which trees are such stylesheets, and
//! `Meaning.transform_meaning` gives the result tree, the error, or that too many rules would be open at once.
//!
//! Example: the stylesheet without templates means, on the document of `<a>x<b>y</b></a>`, the document whose one child
//! is the text `xy`.
#![tactic(auto)]

mod laws;

pub use laws::{content_keeps_texts, deeper_runs_end_alike, last_match_is_best, results_are_sound};
