// The alternatives of a raw value, and their steps.
ghost use Rattle.std.specs.Prelude.{◌≡◌};
ghost use Rattle.pattern_syntax.specs.Parts.{second_or, barless, alternatives, steps_in};
ghost use Rattle.pattern_syntax.specs.Parts.{is_rooted, is_rooted_deep};

use expr_terms::{Production, Raw};
use std::slice::from_ref;

fn second_or<'a>(parts: &'a [Raw], other: &'a Raw) -> &'a Raw
    ensures { result.now ≡ second_or parts.now other.now }
{
    match parts {
        [_, second] => second,
        _ => other,
    }
}

/// The alternative without the `|` before it.
pub(crate) fn barless(raw: &Raw) -> &Raw
    ensures { result.now ≡ barless raw.now }
{
    match raw {
        Raw::Leaf(_) => raw,
        Raw::Node(production, parts) => match production {
            Production::OperatorTail(_) => second_or(parts.as_slice(), raw),
            _ => raw,
        },
    }
}

/// The alternatives, each with the `|` before it.
pub(crate) fn alternatives(raw: &Raw) -> &[Raw]
    ensures { result.now ≡ alternatives raw.now }
{
    match raw {
        Raw::Leaf(_) => from_ref(raw),
        Raw::Node(production, parts) => match production {
            Production::OperatorChain(_) => parts.as_slice(),
            _ => from_ref(raw),
        },
    }
}

/// The steps of an alternative, each with the `/` or `//` before it.
pub(crate) fn steps_in(raw: &Raw) -> &[Raw]
    ensures { result.now ≡ steps_in raw.now }
{
    match raw {
        Raw::Leaf(_) => from_ref(raw),
        Raw::Node(production, parts) => match production {
            Production::Rooted => parts.as_slice(),
            Production::RootSteps => parts.as_slice(),
            Production::RootedDeep => parts.as_slice(),
            Production::Steps => parts.as_slice(),
            _ => from_ref(raw),
        },
    }
}

/// Whether `/` or `//` is at the front of the alternative.
pub(crate) fn is_rooted(raw: &Raw) -> bool
    ensures { result ≡ is_rooted raw.now }
{
    match raw {
        Raw::Leaf(_) => false,
        Raw::Node(production, _) => match production {
            Production::Rooted => true,
            Production::RootSteps => true,
            Production::RootedDeep => true,
            _ => false,
        },
    }
}

/// Whether `//` is at the front of the alternative.
pub(crate) fn is_rooted_deep(raw: &Raw) -> bool
    ensures { result ≡ is_rooted_deep raw.now }
{
    match raw {
        Raw::Leaf(_) => false,
        Raw::Node(production, _) => match production {
            Production::RootedDeep => true,
            _ => false,
        },
    }
}
