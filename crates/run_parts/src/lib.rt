//! What runs of command lines are made of: files that are loaded and read, results of stylesheets,
//! statuses, and what is written and said.
//!
//! `load_inputs` loads and reads the documents of a request, and `load` gives the bytes of any
//! other file; `result_text` runs a stylesheet. Each refusal is a `Status` with its cause. `write`
//! puts a text into a sink in one piece, and `tell` the line of a status.
//!
//! Example: over files that hold `<a>x` as d.xml, `load_document` of d.xml ends with
//! `Status::Malformed`, whose number is 4 and whose line is `malformed d.xml 4`.
#![tactic(auto)]

mod files;
mod inputs;
mod sheets;
mod sinks;
mod status;

pub use files::{load, load_document};
pub use inputs::{InputTrees, load_inputs};
pub use sheets::result_text;
pub use sinks::{tell, write};
pub use status::{ProfileRule, Status};
