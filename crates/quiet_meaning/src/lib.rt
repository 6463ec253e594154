//! What quiet predicates mean: the predicates that fail on no node, as patterns have them (XSLT 2.0, 5.5.3).
//!
//! Definitions and laws alone; nothing runs. `holds_quietly` of specs/Quietly.antt says whether a predicate keeps a node at a position
//! among so many, and `is_pattern_predicate` which predicates a pattern may have.
//!
//! Example: `@k = "a" and position() < 3` keeps a node that has an attribute `k` of the value `a` at the positions 1 and 2.
#![tactic(auto)]

ghost use Rattle.std.specs.Prelude.{◌≡◌, true};
ghost use Rattle.xt_syntax.specs.declared.exprs.Expr.{Expr};
ghost use Rattle.xt_forms.specs.Quiet.{quiet_form_of, is_quiet_expr};
ghost use Rattle.quiet_meaning.specs.Forms.{form_of};
ghost use Rattle.quiet_meaning.specs.Quietly.{quietly_of, is_pattern_predicate};

/// Each quiet predicate is one that a pattern may have (XSLT 2.0, 5.5.2).
pub fn quiet_predicates_stand_in_patterns()
    ensures { (e : Expr) → is_quiet_expr e ≡ true → is_pattern_predicate e ≡ true }
{}

/// What an expression gives in a quiet predicate has the form by which `is_quiet` of xt_forms decides.
pub fn what_is_quiet_has_a_meaning()
    ensures { (e : Expr) → form_of (quietly_of e) ≡ quiet_form_of e }
{}

pub use xdm_items;
pub use xt_forms;
