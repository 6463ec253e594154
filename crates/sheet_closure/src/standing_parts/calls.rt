// Expressions, and the calls in them.
ghost use Rattle.std.specs.Prelude.{◌≡◌, nat_le, IfOk};
ghost use Rattle.std.specs.List.{list_all};
ghost use Rattle.xt_forms.specs.Nest.{nest_of};
ghost use Rattle.sheet_closure.specs.StandingParts.Calls.{may_stand, use_stands, calls_stand, expr_stands};

use name_rules::VariableScope;
use sheet_expressions::{SheetCall, sheet_call};
use sheet_uses::{Use, push_expr_uses};
use std::alloc::{AllocError, Global};
use xt_forms::nest;
use xt_names::{List, Text};
use xt_syntax::Expr;

#[tactic(auto, unfolding(crate::specs::StandingParts::Calls::may_stand))]
fn may_stand(grouped: bool, asked: SheetCall, literal: &Option<Text>) -> bool
    ensures { result ≡ may_stand grouped asked literal.now }
{
    match asked {
        SheetCall::Plain => true,
        SheetCall::LeftOut => true,
        SheetCall::InGroup => grouped,
        SheetCall::Key => literal.is_some(),
    }
}

#[tactic(auto, unfolding(crate::specs::StandingParts::Calls::use_stands))]
fn use_stands(grouped: bool, one: &Use) -> bool
    ensures { result ≡ use_stands grouped one.now }
{
    match one {
        Use::Call(name, arity, literal) => may_stand(grouped, sheet_call(name, *arity), literal),
        Use::Variable(_) | Use::Template(_, _) | Use::Apply(_) => true,
    }
}

fn uses_stand(grouped: bool, uses: &[Use]) -> bool
    ensures { result ≡ list_all (use_stands grouped) uses.now }
{
    for one in uses {
        if !use_stands(grouped, one) {
            return false;
        }
    }
    true
}

fn calls_stand(alloc: Global, grouped: bool, e: &Expr) -> Result<bool, AllocError>
    ensures { IfOk result (λ stand. stand ≡ calls_stand grouped e.now) }
{
    let scope = VariableScope::new(alloc)?;
    let mut found = List::new(alloc);
    push_expr_uses(e, &scope, &mut found)?;
    Ok(uses_stand(grouped, found.as_slice()))
}

/// Whether it nests at most 40 levels.
#[tactic(auto, using(crate::proofs::StandingParts::Levels::levels))]
fn is_shallow(e: &Expr) -> bool
    ensures { result ≡ nat_le (nest_of e.now) 40 }
{
    nest(e) <= 40
}

/// Whether the expression nests at most 40 levels, and each call in it of a function that
/// stylesheets alone have may be there: current-group() and current-grouping-key() within an
/// `xsl:for-each-group` (XSLT 2.0, 14.1), and key() where its first argument is a literal (16.3).
#[tactic(auto, unfolding(crate::specs::StandingParts::Calls::expr_stands))]
pub fn expr_stands(alloc: Global, grouped: bool, e: &Expr) -> Result<bool, AllocError>
    ensures { IfOk result (λ stands. stands ≡ expr_stands grouped e.now) }
{
    if !is_shallow(e) {
        return Ok(false);
    }
    calls_stand(alloc, grouped, e)
}
