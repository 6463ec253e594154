// Taking tokens and values into the productions that are open.
ghost use Rattle.std.specs.Prelude.{◌≡◌, ◌++◌, ◌+◌, [], ◌∷◌, drop, ◌<◌, ◌≤◌, IfOk, IfSome, OnOk, false};
ghost use Rattle.expr_terms.specs.Productions.{body};
ghost use Rattle.expr_reader.specs.Terms.{tok};
ghost use Rattle.expr_terms.specs.Raws.{keep, build};
ghost use Rattle.expr_grammar.specs.Machine.{start, doing};
ghost use Rattle.expr_reader.specs.View.{frame_of, frames_of, Wanted, Given, Taken};

use crate::counts::{before_parts, built_nest, built_within, counted, is_alone, with_part};
use crate::frames::{Frame, Value};
use expr_grammar::expr_nest::Measure;
use expr_terms::{Class, Production, Raw, Symbol, Token, body, build, keeps};
use std::alloc::{AllocError, Global};

/// A count past every limit, where counting ends.
const PAST: u32 = 70000;

/// What became of a value.
#[derive(Clone, Copy)]
pub enum Placement {
    /// No production is open that could take it.
    Refused,
    /// It comes after the others.
    Kept,
    /// It was dropped, since with it the production nests too deep.
    Dropped,
}

/// What a production wants at the place.
#[tactic(auto, using(crate::proofs::PartLemmas::parts))]
pub fn symbol(production: Production, place: usize) -> Option<Symbol>
    ensures wanted { Wanted result (drop place (body production)) (drop (place + 1) (body production)) }
    ensures small { IfSome result (λ s. place < 18446744073709551615) }
{
    let parts = body(production);
    if place < parts.len() {
        Some(parts[place])
    } else {
        None
    }
}

/// A production of which nothing is read yet.
pub fn opened(alloc: Global, production: Production, place: usize) -> Frame
    ensures frame { frame_of result ≡ doing production [] (drop place (body production)) }
    ensures production { result.production ≡ production }
    ensures place { result.place ≡ place }
    ensures kids { result.kids.items ≡ [] }
{
    Frame {
        production,
        place,
        kids: Vec::new(alloc),
        nest: before_parts(production),
        within: 0,
    }
}

/// Puts the token to the others, where it tells more than its production.
#[tactic(auto, using(crate::proofs::ViewLemmas::views))]
fn keep(kids: &mut Vec<Raw>, class: Class, token: &Token) -> Result<(), AllocError>
    ensures { OnOk result (kids.new.items ≡ kids.old.items ++ keep class token.now []) }
{
    if keeps(class) {
        kids.push(Raw::Leaf(token.copy()?))?;
    }
    Ok(())
}

/// How many parts most values of the production have; 0 where that differs.
fn room(production: Production) -> usize
    ensures { result ≤ 3 }
{
    match production {
        Production::Number
        | Production::Literal
        | Production::Variable
        | Production::Parens
        | Production::NameTested
        | Production::KindTested
        | Production::TestStep
        | Production::AttributeStep
        | Production::StepAfter
        | Production::DeepAfter
        | Production::PlainKind
        | Production::ItemChars
        | Production::PartChars => 1,
        Production::OperatorChain(_)
        | Production::OperatorTail(_)
        | Production::Steps
        | Production::RootSteps
        | Production::RootedDeep
        | Production::AxisStep
        | Production::FilterStep
        | Production::Call
        | Production::DirectElement
        | Production::ChildElement
        | Production::ElementContent => 2,
        Production::IfExpr | Production::ForIn | Production::LetAssign => 3,
        _ => 0,
    }
}

/// Makes room for the first part of the production.
fn make_room(kids: &mut Vec<Raw>, production: Production) -> Result<(), AllocError>
    ensures { kids.new.items ≡ kids.old.items }
{
    if kids.is_empty() {
        kids.reserve_exact(room(production))?;
    }
    Ok(())
}

/// Takes a token that is wanted. It adds no level.
#[tactic(auto, using(crate::proofs::ViewLemmas::views, crate::proofs::CapLemmas::kept))]
pub fn with_token(frame: Frame, class: Class, token: &Token) -> Result<Frame, AllocError>
    requires wanted { drop frame.place (body frame.production) ≡ tok class ∷ drop (frame.place + 1) (body frame.production) }
    requires small { frame.place < 18446744073709551615 }
    ensures { IfOk result (λ more. frame_of more ≡ doing frame.production (frame.kids.items ++ keep class token.now []) (drop (frame.place + 1) (body frame.production))) }
{
    let Frame {
        production,
        place,
        kids,
        nest,
        within,
    } = frame;
    let mut kids = kids;
    make_room(&mut kids, production)?;
    keep(&mut kids, class, token)?;
    Ok(Frame {
        production,
        place: place + 1,
        kids,
        nest,
        within,
    })
}

/// The value of a production that wants nothing more.
#[tactic(auto, using(crate::proofs::CapLemmas::closings))]
pub fn closed(frame: Frame) -> Result<Value, AllocError>
    ensures { IfOk result (λ value. value.raw ≡ build frame.production frame.kids.items) }
{
    let Frame {
        production,
        place: _,
        kids,
        nest,
        within,
    } = frame;
    let levels = built_nest(production, nest, kids.as_slice());
    let alone = is_alone(kids.as_slice());
    let within = built_within(production, nest, within, levels, alone);
    let raw = build(production, kids)?;
    Ok(Value {
        raw,
        levels,
        within,
    })
}

/// Whether the production nests deeper than the limit with the value.
fn with_value(
    frame: Frame,
    value: Value,
    measure: Measure,
    limit: u16,
) -> Result<(Frame, Placement), AllocError>
    ensures { IfOk result (λ more. Taken more frame value.raw measure limit) }
{
    let Frame {
        production,
        place,
        kids,
        nest,
        within,
    } = frame;
    let Value {
        raw,
        levels,
        within: inner,
    } = value;
    let more = with_part(production, nest, &raw, levels).min(PAST);
    let widest = within.max(inner).min(PAST);
    let alone = kids.as_slice().is_empty();
    if counted(measure, production, more, widest, alone) > u32::from(limit) {
        drop(raw);
        return Ok((
            Frame {
                production,
                place,
                kids,
                nest,
                within,
            },
            Placement::Dropped,
        ));
    }
    let mut kids = kids;
    make_room(&mut kids, production)?;
    kids.push(raw)?;
    Ok((
        Frame {
            production,
            place,
            kids,
            nest: more,
            within: widest,
        },
        Placement::Kept,
    ))
}

/// Gives the value to the topmost production, unless it nests too deep with it or a value was dropped before.
#[tactic(auto, using(crate::proofs::ViewLemmas::views))]
pub fn give(
    frames: &mut Vec<Frame>,
    value: Value,
    measure: Measure,
    limit: u16,
    is_deep: bool,
) -> Result<Placement, AllocError>
    ensures { IfOk result (λ gift. Given gift value.raw measure limit is_deep (frames_of frames.old.items) (frames_of frames.new.items) frames.old.items frames.new.items) }
{
    if is_deep {
        drop(value);
        return if frames.is_empty() {
            Ok(Placement::Refused)
        } else {
            Ok(Placement::Dropped)
        };
    }
    match frames.pop() {
        None => {
            drop(value);
            Ok(Placement::Refused)
        }
        Some(frame) => {
            let (frame, gift) = with_value(frame, value, measure, limit)?;
            frames.push(frame)?;
            Ok(gift)
        }
    }
}

/// Nothing but the production is open.
#[tactic(auto, using(crate::proofs::ViewLemmas::views))]
pub fn start(alloc: Global, production: Production) -> Result<Vec<Frame>, AllocError>
    ensures { IfOk result (λ frames. frames_of frames.items ≡ start production) }
{
    let mut frames = Vec::new(alloc);
    frames.push(opened(alloc, production, 0))?;
    Ok(frames)
}

/// .. of which the first part stands behind.
#[tactic(auto, using(crate::proofs::ViewLemmas::views))]
pub fn start_behind(alloc: Global, production: Production) -> Result<Vec<Frame>, AllocError>
    ensures { IfOk result (λ frames. frames_of frames.items
        ≡ doing production [] (drop 1 (body production)) ∷ []) }
{
    let mut frames = Vec::new(alloc);
    frames.push(opened(alloc, production, 1))?;
    Ok(frames)
}
