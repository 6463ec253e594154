// Alternatives of patterns.
ghost use Rattle.std.specs.Prelude.{◌≡◌, nat_le};
ghost use Rattle.std.specs.List.{list_all};
ghost use Rattle.xt_forms.specs.Nest.{pattern_nest_of};
ghost use Rattle.sheet_closure.specs.StandingParts.Patterns.{is_pattern_axis, is_pattern_name};
ghost use Rattle.sheet_closure.specs.StandingParts.Patterns.{is_pattern_target, is_pattern_test};
ghost use Rattle.sheet_closure.specs.StandingParts.Patterns.{is_pattern_step, begins_well, is_alternative};

use pattern_forms::are_pattern_predicates;
use xt_forms::nest_pattern;
use xt_names::{Text, is_ncname};
use xt_syntax::{Pattern, PatternStep};
use xt_types::{Axis, NameTest, Test};

#[tactic(auto, unfolding(crate::specs::StandingParts::Patterns::is_pattern_axis))]
fn is_pattern_axis(axis: Axis) -> bool
    ensures { result ≡ is_pattern_axis axis }
{
    match axis {
        Axis::Child | Axis::Attribute => true,
        Axis::Descendant
        | Axis::Itself
        | Axis::DescendantOrSelf
        | Axis::FollowingSibling
        | Axis::Following
        | Axis::Parent
        | Axis::Ancestor
        | Axis::PrecedingSibling
        | Axis::Preceding
        | Axis::AncestorOrSelf => false,
    }
}

#[tactic(auto, unfolding(crate::specs::StandingParts::Patterns::is_pattern_name))]
fn is_pattern_name(name: &NameTest) -> bool
    ensures { result ≡ is_pattern_name name.now }
{
    match name {
        NameTest::Uri(uri) => !uri.is_empty(),
        NameTest::Local(local) => is_ncname(local.as_str()),
        NameTest::Any | NameTest::Exact(_) => true,
    }
}

#[tactic(auto, unfolding(crate::specs::StandingParts::Patterns::is_pattern_target))]
fn is_pattern_target(target: &Option<Text>) -> bool
    ensures { result ≡ is_pattern_target target.now }
{
    match target {
        None => true,
        Some(target) => is_ncname(target.as_str()),
    }
}

#[tactic(auto, unfolding(crate::specs::StandingParts::Patterns::is_pattern_test))]
fn is_pattern_test(test: &Test) -> bool
    ensures { result ≡ is_pattern_test test.now }
{
    match test {
        Test::Named(name) => is_pattern_name(name),
        Test::Pi(target) => is_pattern_target(target),
        Test::Node | Test::Text | Test::Comment => true,
        Test::Doc | Test::Elem(_) | Test::Attr(_) => false,
    }
}

#[tactic(auto, unfolding(crate::specs::StandingParts::Patterns::is_pattern_step))]
fn is_pattern_step(step: &PatternStep) -> bool
    ensures { result ≡ is_pattern_step step.now }
{
    is_pattern_axis(step.axis)
        && is_pattern_test(&step.test)
        && are_pattern_predicates(step.quiet.as_slice())
}

fn are_pattern_steps(steps: &[PatternStep]) -> bool
    ensures { result ≡ list_all is_pattern_step steps.now }
{
    steps.iter().all(|step| is_pattern_step(step))
}

#[tactic(auto, unfolding(crate::specs::StandingParts::Patterns::begins_well))]
fn begins_well(rooted: bool, steps: &[PatternStep]) -> bool
    ensures { result ≡ begins_well rooted steps.now }
{
    match steps {
        [] => rooted,
        [first, ..] => rooted || !first.deep,
    }
}

/// Whether it nests at most 40 levels.
#[tactic(auto, using(crate::proofs::StandingParts::Levels::levels))]
fn is_shallow(pattern: &Pattern) -> bool
    ensures { result ≡ nat_le (pattern_nest_of pattern.now) 40 }
{
    nest_pattern(pattern) <= 40
}

/// Whether it is an alternative of a pattern, as a text spells it (XSLT 2.0, 5.5.2): `/`, or steps
/// on the axes child and attribute, whose tests are names, node(), text(), comment() or
/// processing-instruction(), and whose predicates are those of patterns, within 40 levels.
#[tactic(auto, unfolding(crate::specs::StandingParts::Patterns::is_alternative))]
pub fn is_alternative(pattern: &Pattern) -> bool
    ensures { result ≡ is_alternative pattern.now }
{
    begins_well(pattern.rooted, pattern.steps.as_slice())
        && are_pattern_steps(pattern.steps.as_slice())
        && is_shallow(pattern)
}

pub(crate) fn are_alternatives(patterns: &[Pattern]) -> bool
    ensures { result ≡ list_all is_alternative patterns.now }
{
    patterns.iter().all(|pattern| is_alternative(pattern))
}
