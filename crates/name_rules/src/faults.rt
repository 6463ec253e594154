ghost use Rattle.std.specs.Prelude.{◌≡◌};
ghost use Rattle.name_rules.specs.Faults.{earlier};

use xt_names::Code;

/// The first of two codes, where there is one: what is told of two parts that are read one after the other.
#[tactic(auto, unfolding(crate::specs::Faults::earlier))]
pub fn earlier(first: Option<Code>, later: Option<Code>) -> Option<Code>
    ensures { result ≡ earlier first later }
{
    match first {
        None => later,
        Some(code) => Some(code),
    }
}
