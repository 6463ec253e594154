//! What holds of all instructions and stylesheets: laws alone, nothing runs.
//!
//! Each form of instructions is carried through a relation between outcomes where its parts and the
//! ways out of it are, as expressions are (expr_laws). That more calls left change nothing but an
//! outcome that lacked one is such a relation. A relation may be strict: then it carries stylesheets
//! whose texts and names XML allows.
#![tactic(auto)]

ghost use Rattle.std.specs.Prelude.{ℕ};
ghost use Rattle.transform_meaning.specs.Templates.{Run};
ghost use Rattle.transform_laws.specs.Depth.{CallsChangeNothing};

/// With more calls left a stylesheet gives the same tree, or fails with the same code, unless it
/// needed more calls than it had (XSLT 2.0, 2.4).
pub fn more_calls_change_nothing_else()
    ensures { (run : Run) (n more : ℕ) → CallsChangeNothing run n more }
{}
