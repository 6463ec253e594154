// What an expression or a part is, whatever its parts are.
ghost use Rattle.std.specs.Prelude.{◌≡◌, ◌||◌, not, is_some};
ghost use Rattle.expr_terms.specs.Raws.{as_inner_chain};
ghost use Rattle.expr_terms.specs.declared.raws.Raw.TheViews.{out-Raw};
ghost use Rattle.expr_raws.specs.PathRaws.Forms.{at, single};
ghost use Rattle.expr_raws.specs.ControlRaws.Bindings.{has_some};
ghost use Rattle.expr_raws.specs.ElementRaws.Direct.{is_characters, is_element};
ghost use Rattle.expr_raws.specs.Raws.{form_of};
ghost use Rattle.expr_drafts.specs.ExprPlaces.Forms.{part_form};
ghost use Rattle.printable_forms.specs.Roots.{is_if, is_direct};

use expr_drafts::name_prefixes::NamePrefixes;
use xt_syntax::{Arm, Bind, Clause, Expr, Order, Part};

fn has_if(e: &Expr) -> bool
    ensures { result ≡ is_if e.now }
{
    matches!(e, Expr::If(_, _))
}

/// Whether it would go on with the chain of a conditional that it ends, under any prefixes.
pub(crate) fn is_if(_prefixes: &NamePrefixes, last: &Expr) -> bool
    ensures { result ≡ is_some (as_inner_chain (out-Raw (at single
        (form_of _prefixes.now last.now)))) }
{
    has_if(last)
}

fn has_direct(e: &Expr) -> bool
    ensures { result ≡ is_direct e.now }
{
    matches!(e, Expr::Direct(_, _, _))
}

/// Whether it is a direct element, under any prefixes.
pub(crate) fn is_direct(_prefixes: &NamePrefixes, child: &Expr) -> bool
    ensures { result ≡ is_element (out-Raw (form_of _prefixes.now child.now).raw) }
{
    has_direct(child)
}

/// Whether it is characters, under any prefixes.
pub(crate) fn is_characters(_prefixes: &NamePrefixes, part: &Part) -> bool
    ensures { result ≡ is_characters (part_form _prefixes.now part.now) }
{
    matches!(part, Part::Chars(_))
}

pub(crate) fn has_arms(arms: &[Arm]) -> bool
    ensures { result ≡ has_some arms.now }
{
    match arms {
        [] => false,
        _ => true,
    }
}

pub(crate) fn has_binds(binds: &[Bind]) -> bool
    ensures { result ≡ has_some binds.now }
{
    match binds {
        [] => false,
        _ => true,
    }
}

pub(crate) fn has_tests(tests: &[Expr]) -> bool
    ensures { result ≡ has_some tests.now }
{
    match tests {
        [] => false,
        _ => true,
    }
}

pub(crate) fn has_clauses(clauses: &[Clause]) -> bool
    ensures { result ≡ has_some clauses.now }
{
    match clauses {
        [] => false,
        _ => true,
    }
}

/// Whether there are orders, or what would be stable is not.
pub(crate) fn is_settled(stable: bool, orders: &[Order]) -> bool
    ensures { result ≡ (not stable || has_some orders.now) }
{
    match orders {
        [] => !stable,
        _ => true,
    }
}
