//! What the command `transform` gives: the text of what a stylesheet makes of a document, as files
//! hold them.
//!
//! `sheet_text` loads the stylesheet with all its modules, and looks at every static rule. Then it
//! loads and reads the documents, runs the stylesheet, and writes the result tree as text. So far
//! only a stylesheet of the first form is run (`sheet_reader::is_first_sheet`); any other is
//! refused as one that uses what is left out.
//!
//! Example: over files that hold `<xsl:stylesheet version="2.0"
//! xmlns:xsl="http://www.w3.org/1999/XSL/Transform"/>` as s.xsl and `<a>x</a>` as d.xml, the text
//! is `<?xml version="1.0" encoding="UTF-8"?>x`.

mod first;
mod texts;

pub use texts::sheet_text;
