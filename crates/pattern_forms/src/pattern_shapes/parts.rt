// What stands behind `/` or `//`.
ghost use Rattle.std.specs.Prelude.{◌≡◌};
ghost use Rattle.expr_terms.specs.declared.raws.Raw.TheViews.{out-Raw};
ghost use Rattle.pattern_forms.specs.PatternShapes.Shapes.{is_behind_slashes, only_or, inner_step};

use expr_terms::{Production, Raw};

/// Whether the step stands behind `//`.
pub fn is_behind_slashes(raw: &Raw) -> bool
    ensures { result ≡ is_behind_slashes raw.now }
{
    match raw {
        Raw::Leaf(_) => false,
        Raw::Node(production, _) => match production {
            Production::DeepAfter => true,
            _ => false,
        },
    }
}

/// The step without the `/` or `//` before it.
pub fn inner_step(raw: &Raw) -> &Raw
    ensures { result.now ≡ inner_step raw.now }
{
    match raw {
        Raw::Leaf(_) => raw,
        Raw::Node(production, parts) => match production {
            Production::StepAfter => only_or(parts.as_slice(), raw),
            Production::DeepAfter => only_or(parts.as_slice(), raw),
            _ => raw,
        },
    }
}

fn only_or<'a>(parts: &'a [Raw], other: &'a Raw) -> &'a Raw
    ensures { result.now ≡ only_or parts.now other.now }
{
    match parts {
        [only] => only,
        _ => other,
    }
}
