//! Each expression of a stylesheet does in its query what it does in the stylesheet: laws alone, nothing
//! runs.
//!
//! Where the variables of the query hold the focus, the current item and the current group of the
//! stylesheet, and calls, keys, documents and globals of the two programs are related, so is the
//! expression and the expression as the query has it: in both directions, for any numbers of calls
//! that are left on the two sides.
//!
//! Example: `current()` fails in a function's body on both sides, with two codes.
#![tactic(auto)]

ghost use Rattle.std.specs.Prelude.{◌≡◌, true};
ghost use Rattle.expr_meaning.specs.Outcomes.Follow.{back, there};
ghost use Rattle.expr_meaning.specs.Env.{Program};
ghost use Rattle.xt_syntax.specs.declared.exprs.Expr.{Expr};
ghost use Rattle.meaning_laws.specs.SoundValues.Sound.{IsSound};
ghost use Rattle.carried_exprs.specs.Sights.{HasLocalKeys, Setting};
ghost use Rattle.carried_exprs.specs.Fits.{may_be_carried};
ghost use Rattle.carry_laws.specs.Seen.{IsCarried, ProgramsCarry};

/// Where an expression of the stylesheet ends or fails, so does it in the query, with the same items and
/// the same next number (XPath 2.0, 2.1.2; XSLT 2.0, 5.4).
pub fn what_a_stylesheet_does_its_query_does()
    ensures { (w : Setting) → HasLocalKeys w → (p q : Program) → ProgramsCarry there IsSound w p q →
        (x : Expr) → may_be_carried w x ≡ true → IsCarried there w p q x }
{}

/// Where an expression of the stylesheet ends or fails in the query, so does it in the stylesheet, with
/// the same items and the same next number.
pub fn what_its_query_does_a_stylesheet_does()
    ensures { (w : Setting) → HasLocalKeys w → (p q : Program) → ProgramsCarry back IsSound w p q →
        (x : Expr) → may_be_carried w x ≡ true → IsCarried back w p q x }
{}
