//! The reader of stylesheets.
//!
//! It takes a tree and says whether it is a stylesheet of the first form: a document whose root is xsl:stylesheet with
//! the one attribute `version="2.0"`. Its children are templates whose one attribute `match` is `/` or a name; a template
//! holds texts, literal elements without namespace and attributes, nested at most 40 deep, and apply-templates without
//! attributes and content. White space alone goes; comments and processing instructions may stand outside templates only.
//!
//! Example: the tree of `<xsl:stylesheet version="2.0" xmlns:xsl="http://www.w3.org/1999/XSL/Transform"/>` is one, and
//! that of `<a/>` is none.
#![tactic(auto)]

mod attributes;
mod names;
mod sheets;

pub use sheets::is_first_sheet;
