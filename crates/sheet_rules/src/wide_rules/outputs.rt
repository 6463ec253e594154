// Declarations of the output.
ghost use Rattle.std.specs.Prelude.{◌≡◌, ◌++◌, OnOk};
ghost use Rattle.sheet_rules.specs.WideRules.Doubles.{code_if};
ghost use Rattle.sheet_rules.specs.WideRules.Outputs.{highest, says, says_at, outputs_differ};
ghost use Rattle.xt_names.specs.declared.codes.SheetStaticCode.TheVariants.{XTSE1560};

use crate::sheet_declarations::Declaration;
use crate::wide_rules::doubles::push_if;
use sheet_modules::Part;
use std::alloc::AllocError;
use xt_names::{Code, List, SheetStaticCode};

/// Puts XTSE1560 after the codes, where two declarations of the output, both at the highest import
/// precedence at which one says whether the XML declaration is left out, do not say the same (XSLT
/// 2.0, 20).
pub fn push_outputs<E, P>(
    declarations: &[Declaration<E, P>],
    codes: &mut List<Code>,
) -> Result<(), AllocError>
    ensures { OnOk result (codes.new
        ≡ codes.old ++ code_if (outputs_differ declarations.now) XTSE1560) }
{
    let level = highest(declarations);
    let differ = says_at(declarations, level, true) && says_at(declarations, level, false);
    push_if(codes, differ, SheetStaticCode::XTSE1560)
}

/// The highest precedence at which a declaration says whether the XML declaration is left out; 0
/// where none does.
fn highest<E, P>(declarations: &[Declaration<E, P>]) -> u32
    ensures { result ≡ highest declarations.now }
{
    let mut left = declarations.len();
    let mut level = 0;
    while left > 0 {
        left -= 1;
        let one = &declarations[left];
        if let Part::Output(Some(_)) = one.part.get()
            && level < one.level
        {
            level = one.level;
        }
    }
    level
}

/// Whether some declaration at this precedence says so.
fn says_at<E, P>(declarations: &[Declaration<E, P>], level: u32, omit: bool) -> bool
    ensures { result ≡ says_at declarations.now level omit }
{
    declarations
        .iter()
        .any(|one| one.level == level && says(one.part.get(), omit))
}

fn says<E, P>(part: &Part<E, P>, omit: bool) -> bool
    ensures { result ≡ says part.now omit }
{
    match part {
        Part::Output(Some(said)) => { if omit { *said } else { !*said } }
        _ => false,
    }
}
