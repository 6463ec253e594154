ghost use Rattle.std.specs.Prelude.{◌≡◌, List as Items};
ghost use Rattle.xt_names.specs.declared.codes.Code.{Code};
ghost use Rattle.name_rules.specs.Faults.{first};
ghost use Rattle.expr_names.specs.Answers.{Answers};

use expr_names::ResolveFault;
use xt_names::Code;

/// The fault of the first broken rule, where there is one.
/// (XQuery 1.0, 2.3.1)
#[tactic(auto, using(crate::proofs::QueryPrologs::FaultLemmas::none_broken))]
pub fn answer_to(found: Option<Code>) -> Result<(), ResolveFault>
    ensures { (codes : Items Code) → found ≡ first codes → Answers result codes tt }
{
    match found {
        None => Ok(()),
        Some(code) => Err(ResolveFault::Static(code)),
    }
}
