ghost use Rattle.std.specs.Prelude.{◌≡◌};
ghost use Rattle.name_rules.specs.Faults.{first};
ghost use Rattle.closed_queries.specs.PrologRules.Setters.{broken_if};

use xt_names::{Code, QueryStaticCode};

/// The code, where its rule is broken.
#[tactic(auto, unfolding(crate::specs::PrologRules::Setters::broken_if, name_rules::specs::Faults::first))]
pub(crate) fn broken_if(broken: bool, code: QueryStaticCode) -> Option<Code>
    ensures { result ≡ first (broken_if broken code) }
{
    if broken {
        Some(Code::QueryStatic(code))
    } else {
        None
    }
}
