//! Small stylesheets, and what the definitions make of small documents: definitions and a law alone,
//! nothing runs.
//!
//! A row has a stylesheet, a document, a number of calls and the outcome: the tree and the next number
//! of a tree, an error, or that a call is lacked.
//!
//! Example: a stylesheet without rules makes `xy` of `<a>x<b>y</b></a>` with four calls, and lacks one
//! with three.
#![tactic(auto)]

ghost use Rattle.transform_rows.specs.Rows.{Rows};

/// Each row holds by computing alone.
pub fn each_row_is_what_the_definitions_give()
    ensures { Rows }
{}
