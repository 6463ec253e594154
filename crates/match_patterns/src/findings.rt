// What a search among the nodes above a node tells.
ghost use Rattle.std.specs.Prelude.{◌≡◌};
ghost use Rattle.match_patterns.specs.Findings.{finding_of, is_here};

/// Whether steps match at a node. Where they fail and do so at each node above too, none of those
/// need be tried.
#[derive(Clone, Copy)]
pub(crate) enum Finding {
    Here,
    NotHere,
    NotAbove,
}

pub(crate) fn finding_of(truth: bool) -> Finding
    ensures { result ≡ finding_of truth }
{
    if truth {
        Finding::Here
    } else {
        Finding::NotHere
    }
}

pub(crate) fn is_here(finding: Finding) -> bool
    ensures { result ≡ is_here finding }
{
    match finding {
        Finding::Here => true,
        Finding::NotHere => false,
        Finding::NotAbove => false,
    }
}
