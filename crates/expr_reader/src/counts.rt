// How deep a production nests, counted part by part (what `levels_of` says of the whole).
ghost use Rattle.std.specs.Prelude.{◌≡◌, ◌≤◌, is_some};
ghost use Rattle.expr_terms.specs.declared.raws.Raw.TheViews.{out-Raw};
ghost use Rattle.expr_terms.specs.Nest.{levels_of, before_parts, is_left_level, is_left, is_arms, left_part, arm_part, with_part, whole_nest};
ghost use Rattle.expr_terms.specs.Raws.{as_chain, only_chain, as_inner_chain, only_inner};
ghost use Rattle.expr_grammar.specs.ExprNest.Held.{is_alone, built_nest};
ghost use Rattle.expr_grammar.specs.ExprNest.Measures.{is_step, is_unions, is_outside, counted, built_within};
ghost use Rattle.expr_reader.specs.Counts.{is_deep, is_last, chosen};

use expr_grammar::expr_nest::Measure;
use expr_terms::{Level, Production, Raw, passes};

/// The levels before any part: after the root stands a step, behind `//` at the front one more.
pub fn before_parts(production: Production) -> u32
    ensures count { result ≡ before_parts production }
    ensures small { result ≤ 2 }
{
    match production {
        Production::RootSteps => 1,
        Production::RootedDeep => 2,
        _ => 0,
    }
}

fn is_left_level(level: Level) -> bool
    ensures { result ≡ is_left_level level }
{
    match level {
        Level::Or => false,
        Level::And => false,
        _ => true,
    }
}

/// Whether the parts nest to the left.
fn is_left(production: Production) -> bool
    ensures { result ≡ is_left production }
{
    match production {
        Production::OperatorChain(level) => is_left_level(level),
        Production::Steps => true,
        Production::RootSteps => true,
        Production::RootedDeep => true,
        _ => false,
    }
}

/// Whether the parts are those of a conditional.
fn is_arms(production: Production) -> bool
    ensures { result ≡ is_arms production }
{
    match production {
        Production::IfExpr => true,
        Production::ElseExpr => true,
        _ => false,
    }
}

/// Whether the part stands behind `//`, which makes two levels.
#[tactic(auto, using(crate::proofs::CountLemmas::counts))]
fn is_deep(part: &Raw) -> bool
    ensures { result ≡ is_deep (levels_of part.now).mark }
{
    match part {
        Raw::Leaf(_) => false,
        Raw::Node(production, _) => match production {
            Production::DeepAfter => true,
            _ => false,
        },
    }
}

/// Whether the part is the last one of a conditional.
#[tactic(auto, using(crate::proofs::CountLemmas::counts))]
fn is_last(part: &Raw) -> bool
    ensures { result ≡ is_last (levels_of part.now).mark }
{
    match part {
        Raw::Leaf(_) => false,
        Raw::Node(production, _) => match production {
            Production::ElseExpr => true,
            _ => false,
        },
    }
}

#[tactic(auto, using(crate::proofs::CountLemmas::marks))]
fn left_part(nest: u32, part: &Raw, levels: u32) -> u32
    requires small { (nest ≤ 70010) × (levels ≤ 70010) }
    ensures count { result ≡ left_part nest (levels_of part.now).mark levels }
    ensures small { result ≤ 70020 }
{
    let more = if is_deep(part) { 1 + nest.max(1) } else { nest };
    1 + more.max(levels)
}

#[tactic(auto, using(crate::proofs::CountLemmas::marks))]
fn arm_part(nest: u32, part: &Raw, levels: u32) -> u32
    requires small { (nest ≤ 70010) × (levels ≤ 70010) }
    ensures count { result ≡ arm_part nest (levels_of part.now).mark levels }
    ensures small { result ≤ 70020 }
{
    if is_last(part) {
        nest.max(levels.saturating_sub(1))
    } else {
        nest.max(levels)
    }
}

/// The levels of the parts with one more, which has these levels.
pub fn with_part(production: Production, nest: u32, part: &Raw, levels: u32) -> u32
    requires small { (nest ≤ 70010) × (levels ≤ 70010) }
    ensures count { result
        ≡ with_part production nest (record { nest = levels; mark = (levels_of part.now).mark }) }
    ensures small { result ≤ 70020 }
{
    if is_left(production) {
        if nest == 0 {
            levels
        } else {
            left_part(nest, part, levels)
        }
    } else if is_arms(production) {
        arm_part(nest, part, levels)
    } else {
        nest.max(levels)
    }
}

/// The levels of the value of a production whose parts have these levels.
fn whole_nest(production: Production, nest: u32) -> u32
    requires small { nest ≤ 70000 }
    ensures count { result ≡ whole_nest production nest }
    ensures small { result ≤ 70002 }
{
    match production {
        Production::ExprList => 1 + nest,
        Production::IfExpr => 1 + nest,
        Production::ElseExpr => 1 + nest,
        Production::FlworExpr => 1 + nest,
        Production::QuantifiedExpr => 1 + nest,
        Production::OperatorChain(level) => { if is_left_level(level) { nest } else { 1 + nest } }
        Production::Signed => 1 + nest,
        Production::Rooted => nest.max(1),
        Production::AxisStep => 1 + nest,
        Production::AttributeStep => 1 + nest,
        Production::TestStep => 1 + nest,
        Production::ParentStep => 1 + nest,
        Production::FilterStep => 1 + nest,
        Production::Number => 1 + nest,
        Production::Literal => 1 + nest,
        Production::Variable => 1 + nest,
        Production::Parens => nest.max(1),
        Production::Context => 1 + nest,
        Production::Call => 1 + nest,
        Production::Computed => 1 + nest,
        Production::Constructed => 1 + nest.max(1),
        Production::PiConstructed => 1 + nest.max(1),
        Production::Enclosing => 1 + nest,
        Production::DirectElement => 1 + nest,
        Production::ChildElement => 1 + nest,
        _ => nest,
    }
}

fn is_conditional(part: &Raw) -> bool
    ensures { result ≡ is_some (as_chain (out-Raw part.now)) }
{
    match part {
        Raw::Leaf(_) => false,
        Raw::Node(production, _) => match production {
            Production::IfExpr => true,
            _ => false,
        },
    }
}

fn is_only_conditional(parts: &[Raw]) -> bool
    ensures { result ≡ is_some (only_chain parts.now) }
{
    match parts {
        [] => false,
        [only] => is_conditional(only),
        [_, ..] => false,
    }
}

/// Whether the part is a conditional, in parentheses or not.
fn is_inner(part: &Raw) -> bool
    ensures { result ≡ is_some (as_inner_chain (out-Raw part.now)) }
{
    match part {
        Raw::Leaf(_) => false,
        Raw::Node(production, parts) => match production {
            Production::IfExpr => true,
            Production::Parens => is_only_conditional(parts.as_slice()),
            _ => false,
        },
    }
}

fn is_only_inner(parts: &[Raw]) -> bool
    ensures { result ≡ only_inner parts.now }
{
    match parts {
        [] => false,
        [only] => is_inner(only),
        [_, ..] => false,
    }
}

/// Whether there is one part.
pub fn is_alone(parts: &[Raw]) -> bool
    ensures { result ≡ is_alone parts.now }
{
    match parts {
        [] => false,
        [_] => true,
        [_, _, ..] => false,
    }
}

/// The levels of the value of the production, whose parts have these levels together.
pub fn built_nest(production: Production, nest: u32, parts: &[Raw]) -> u32
    requires small { nest ≤ 70000 }
    ensures count { result ≡ built_nest production nest parts.now }
    ensures small { result ≤ 70002 }
{
    match production {
        Production::Parens => nest.max(1),
        Production::ElseExpr => { if is_only_inner(parts) { nest } else { 1 + nest } }
        Production::IfExpr => 1 + nest,
        _ => {
            if is_alone(parts) && passes(production) {
                nest
            } else {
                whole_nest(production, nest)
            }
        }
    }
}

fn is_step(production: Production) -> bool
    ensures { result ≡ is_step production }
{
    match production {
        Production::AxisStep => true,
        Production::AttributeStep => true,
        Production::TestStep => true,
        _ => false,
    }
}

fn is_unions(level: Level) -> bool
    ensures { result ≡ is_unions level }
{
    match level {
        Level::Union => true,
        _ => false,
    }
}

/// Whether the production stands outside of predicates in a pattern.
fn is_outside(production: Production) -> bool
    ensures { result ≡ is_outside production }
{
    match production {
        Production::OperatorChain(level) => is_unions(level),
        Production::OperatorTail(_) => true,
        Production::Rooted => true,
        Production::RootedDeep => true,
        Production::RootSteps => true,
        Production::Steps => true,
        Production::StepAfter => true,
        Production::DeepAfter => true,
        _ => false,
    }
}

/// What counts of a production whose parts have these levels, and these within predicates.
pub fn counted(measure: Measure, production: Production, nest: u32, within: u32, alone: bool) -> u32
    ensures { result ≡ counted measure production nest within alone }
{
    match measure {
        Measure::Whole => nest,
        Measure::Predicates => built_within(production, nest, within, nest, alone),
    }
}

/// The levels within predicates of the value of the production, which has so many levels.
pub fn built_within(production: Production, nest: u32, within: u32, levels: u32, alone: bool) -> u32
    ensures { result ≡ built_within production nest within levels alone }
{
    if is_step(production) {
        nest
    } else if is_outside(production) {
        within
    } else if alone && passes(production) {
        within
    } else {
        levels
    }
}

/// What counts of a value with these levels, and these within predicates.
pub fn chosen(measure: Measure, levels: u32, within: u32) -> u32
    ensures { result ≡ chosen measure levels within }
{
    match measure {
        Measure::Whole => levels,
        Measure::Predicates => within,
    }
}
