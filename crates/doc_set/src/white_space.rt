//! White space that is stripped from trees (XSLT 2.0, 4.4).
//!
//! `strip` gives a tree without the texts of white space alone that rules say to strip. Subtrees in which nothing goes are
//! shared where that is seen at once, and no text is copied.
//!
//! Example: with the one rule that strips in every element, `<a> <b>x</b> </a>` becomes `<a><b>x</b></a>`.

mod laws;
mod rules;
mod stripping;

pub use laws::stripped_trees_are_sound;
pub use stripping::strip;
