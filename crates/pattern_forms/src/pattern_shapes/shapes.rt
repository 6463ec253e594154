// The shapes of steps, alternatives and patterns.
ghost use Rattle.std.specs.Prelude.{◌≡◌};
ghost use Rattle.std.specs.List.{list_all};
ghost use Rattle.expr_terms.specs.declared.raws.Raw.TheViews.{out-Raw};
ghost use Rattle.pattern_forms.specs.PatternShapes.Shapes.{is_pattern_key, is_axis_leaf, has_pattern_axis, is_step, is_only_step, is_after, are_steps, is_alternative};
ghost use Rattle.pattern_forms.specs.PatternShapes.Shapes.{is_bar_key, is_bar, has_bar, is_barred, are_alternatives, is_unions, is_pattern};

use expr_terms::{Key, Level, Production, Raw, Token};

fn is_pattern_key(token: &Token) -> bool
    ensures { result ≡ is_pattern_key token.now }
{
    match token {
        Token::Key(key) => match key {
            Key::ChildWord => true,
            Key::AttributeWord => true,
            _ => false,
        },
        _ => false,
    }
}

/// Whether the axis of a step is one that patterns have.
fn has_pattern_axis(parts: &[Raw]) -> bool
    ensures { result ≡ has_pattern_axis parts.now }
{
    match parts {
        [] => false,
        [first, ..] => is_axis_leaf(first),
    }
}

fn is_axis_leaf(part: &Raw) -> bool
    ensures { result ≡ is_axis_leaf (out-Raw part.now) }
{
    match part {
        Raw::Leaf(token) => is_pattern_key(token),
        Raw::Node(_, _) => false,
    }
}

/// Whether the raw value is a step of a pattern.
pub fn is_step(raw: &Raw) -> bool
    ensures { result ≡ is_step raw.now }
{
    match raw {
        Raw::Leaf(_) => false,
        Raw::Node(production, parts) => match production {
            Production::AxisStep => has_pattern_axis(parts.as_slice()),
            Production::AttributeStep => true,
            Production::TestStep => true,
            _ => false,
        },
    }
}

fn is_only_step(parts: &[Raw]) -> bool
    ensures { result ≡ is_only_step parts.now }
{
    match parts {
        [] => false,
        [only] => is_step(only),
        [_, _, ..] => false,
    }
}

/// Whether the raw value is a step of a pattern behind `/` or `//`.
fn is_after(raw: &Raw) -> bool
    ensures { result ≡ is_after raw.now }
{
    match raw {
        Raw::Leaf(_) => false,
        Raw::Node(production, parts) => match production {
            Production::StepAfter => is_only_step(parts.as_slice()),
            Production::DeepAfter => is_only_step(parts.as_slice()),
            _ => false,
        },
    }
}

fn are_after(raws: &[Raw]) -> bool
    ensures { result ≡ list_all is_after raws.now }
{
    raws.iter().all(|raw| is_after(raw))
}

fn are_steps(parts: &[Raw]) -> bool
    ensures { result ≡ are_steps parts.now }
{
    match parts {
        [] => false,
        [first, more @ ..] => is_step(first) && are_after(more),
    }
}

/// Whether the raw value is one alternative.
pub fn is_alternative(raw: &Raw) -> bool
    ensures { result ≡ is_alternative raw.now }
{
    match raw {
        Raw::Leaf(_) => false,
        Raw::Node(production, parts) => match production {
            Production::Rooted => parts.is_empty(),
            Production::RootSteps => are_steps(parts.as_slice()),
            Production::RootedDeep => are_steps(parts.as_slice()),
            Production::Steps => are_steps(parts.as_slice()),
            _ => is_step(raw),
        },
    }
}

fn is_bar_key(token: &Token) -> bool
    ensures { result ≡ is_bar_key token.now }
{
    match token {
        Token::Key(key) => match key {
            Key::Bar => true,
            _ => false,
        },
        _ => false,
    }
}

fn is_bar(part: &Raw) -> bool
    ensures { result ≡ is_bar (out-Raw part.now) }
{
    match part {
        Raw::Leaf(token) => is_bar_key(token),
        Raw::Node(_, _) => false,
    }
}

fn has_bar(parts: &[Raw]) -> bool
    ensures { result ≡ has_bar parts.now }
{
    match parts {
        [bar, alternative] => is_bar(bar) && is_alternative(alternative),
        _ => false,
    }
}

fn is_unions(level: Level) -> bool
    ensures { result ≡ is_unions level }
{
    match level {
        Level::Union => true,
        _ => false,
    }
}

/// Whether the raw value is a `|` with an alternative after it.
pub fn is_barred(raw: &Raw) -> bool
    ensures { result ≡ is_barred raw.now }
{
    match raw {
        Raw::Leaf(_) => false,
        Raw::Node(production, parts) => match production {
            Production::OperatorTail(level) => is_unions(*level) && has_bar(parts.as_slice()),
            _ => false,
        },
    }
}

fn are_barred(raws: &[Raw]) -> bool
    ensures { result ≡ list_all is_barred raws.now }
{
    raws.iter().all(|raw| is_barred(raw))
}

fn are_alternatives(parts: &[Raw]) -> bool
    ensures { result ≡ are_alternatives parts.now }
{
    match parts {
        [] => false,
        [first, more @ ..] => is_alternative(first) && are_barred(more),
    }
}

/// Whether the raw value has the shape of a pattern (XSLT 2.0, 5.5.2).
pub fn is_pattern(raw: &Raw) -> bool
    ensures { result ≡ is_pattern raw.now }
{
    match raw {
        Raw::Leaf(_) => false,
        Raw::Node(production, parts) => match production {
            Production::OperatorChain(level) => is_unions(*level)
                && are_alternatives(parts.as_slice()),
            _ => is_alternative(raw),
        },
    }
}
