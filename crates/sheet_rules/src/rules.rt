// All rules on names that a stylesheet breaks.
ghost use Rattle.std.specs.Prelude.{◌≡◌, ◌++◌, OnOk};
ghost use Rattle.sheet_rules.specs.Rules.{broken_rules};

use crate::names::{names_of, push_missing};
use crate::sheet_declarations::Declaration;
use crate::uses::{key_uses_of, uses_of};
use crate::wide_rules::{Parameters, push_broken_passing, push_doubles, push_outputs};
use sheet_expressions::sheet_names::push_broken_uses;
use sheet_uses::key_calls::push_called;
use std::alloc::{AllocError, Global};
use xt_names::{Code, ExprName, List};
use xt_syntax::{Expr, Pattern};

/// Puts the codes of the rules that the declarations break together after the others: XPST0008,
/// XPST0017 and XTDE1260 of names that are not declared, XTSE0650 of each name in `called` that no
/// template has, XTSE0630, XTSE0660 and XTSE0770 of what stands twice at one precedence, XTSE0680
/// and XTSE0690 of calls of the templates that have these parameters, by their numbers, XTUN0001
/// of calls of functions in grouping keys and in `use` of keys, and XTSE1560 of declarations of
/// the output.
pub fn push_broken_rules(
    alloc: Global,
    declarations: &[Declaration<Expr, Pattern>],
    called: &[ExprName],
    templates: &[Parameters],
    codes: &mut List<Code>,
) -> Result<(), AllocError>
    ensures { OnOk result (codes.new
        ≡ codes.old ++ broken_rules declarations.now called.now templates.now) }
{
    let names = names_of(alloc, declarations, u32::MAX)?;
    let uses = uses_of(alloc, declarations)?;
    push_broken_uses(alloc, &names, uses.as_slice(), codes)?;
    push_missing(alloc, called, declarations, codes)?;
    push_doubles(alloc, declarations, codes)?;
    push_broken_passing(templates, uses.as_slice(), codes)?;
    let key_uses = key_uses_of(alloc, declarations)?;
    push_called(&names.functions, key_uses.as_slice(), codes)?;
    push_outputs(declarations, codes)
}
