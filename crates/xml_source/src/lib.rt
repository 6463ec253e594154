//! The text of a document (XML 1.0), as it is taken from its front: line ends, characters in runs, names, references,
//! and what is between elements: comments, instructions, sections, the XML declaration and the
//! document type.
//!
//! A `Source` is what is left of a text. Each method takes one piece, and its contract tells what the grammar of
//! `doc_grammar` reads there; where the text does not go on so, a `Stop` tells why, and the source stands where the
//! grammar stops. What is read of a piece is put in a `Buffer`. Elements, scopes and trees are the work of `doc_reader`.
//!
//! Example: before `lt;b` the method `reference` takes `lt;` and gives `<`; before `no;` it gives `Stop::Entity`.
#![tactic(auto)]

mod asides;
mod buffers;
mod classes;
mod equals;
mod lines;
mod names;
mod prolog;
mod references;
mod sources;
mod steps;

pub use buffers::Buffer;
pub use classes::{Bracket, DoubleQuoted, PlainText, SingleQuoted, is_space, starts_name};
pub use lines::{has_return, offset, with_line_feeds};
pub use names::RawName;
pub use sources::Source;
pub use steps::{Step, Stop};
