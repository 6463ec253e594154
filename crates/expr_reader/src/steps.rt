// Leading a token into the open productions, and closing what it does not go on with.
ghost use Rattle.std.specs.Prelude.{◌≡◌, ◌+◌, ◌<◌, drop, IfOk};
ghost use Rattle.expr_terms.specs.Productions.{body};
ghost use Rattle.expr_grammar.specs.Machine.{doing, along, skips};
ghost use Rattle.expr_reader.specs.View.{frame_of, frames_of, Went};
ghost use Rattle.expr_reader.specs.Answers.{Advanced, Judged, Finished};

use crate::counts::chosen;
use crate::frames::{Frame, Value};
use crate::fronts::try_below;
use crate::parts::{Placement, closed, give, symbol, with_token};
use crate::passing::{pass_up, refuses};
use crate::readings::Reading;
use expr_grammar::expr_nest::Measure;
use expr_terms::{Language, Production, Raw, Second, Symbol, Token, begins, fits};
use std::alloc::{AllocError, Global};

/// How far a token leads into what is wanted.
#[derive(Drop)]
pub enum Progress {
    Rejected,
    Consumed,
    FrameDone(Frame),
}

/// The frame after the part that it wants next.
fn past(frame: Frame) -> Frame
    requires small { frame.place < 18446744073709551615 }
    ensures frame { frame_of result ≡ doing frame.production frame.kids.items (drop (frame.place + 1) (body frame.production)) }
    ensures production { result.production ≡ frame.production }
    ensures place { result.place ≡ frame.place + 1 }
    ensures kids { result.kids.items ≡ frame.kids.items }
{
    let Frame {
        production,
        place,
        kids,
        nest,
        within,
    } = frame;
    Frame {
        production,
        place: place + 1,
        kids,
        nest,
        within,
    }
}

/// Leads the token into what the frame still wants.
#[cycle(along)]
#[tactic(auto, using(crate::proofs::ViewLemmas::views))]
fn along(
    alloc: Global,
    frames: &mut Vec<Frame>,
    frame: Frame,
    language: Language,
    token: &Token,
    second: Second,
) -> Result<Progress, AllocError>
    ensures { IfOk result (λ way. Went way (along language token.now second frame.production frame.kids.items (frames_of frames.old.items) (drop frame.place (body frame.production))) frame frames.old.items frames.new.items) }
{
    match symbol(frame.production, frame.place) {
        None => Ok(Progress::FrameDone(frame)),
        Some(Symbol::Tok(class)) => {
            if !fits(class, token) {
                drop(frame);
                return Ok(Progress::Rejected);
            }
            frames.push(with_token(frame, class, token)?)?;
            Ok(Progress::Consumed)
        }
        Some(Symbol::One(inner)) => {
            let frame = past(frame);
            match try_below(alloc, frames, frame, language, inner, token, second)? {
                None => Ok(Progress::Consumed),
                Some(_) => Ok(Progress::Rejected),
            }
        }
        Some(Symbol::Maybe(inner)) => {
            let frame = past(frame);
            if refuses(inner, token) {
                return along(alloc, frames, frame, language, token, second);
            }
            match try_below(alloc, frames, frame, language, inner, token, second)? {
                None => Ok(Progress::Consumed),
                Some(frame) => along(alloc, frames, frame, language, token, second),
            }
        }
        Some(Symbol::Many(inner)) => {
            if refuses(inner, token) {
                return along(alloc, frames, past(frame), language, token, second);
            }
            match try_below(alloc, frames, frame, language, inner, token, second)? {
                None => Ok(Progress::Consumed),
                Some(frame) => {
                    let frame = past(frame);
                    along(alloc, frames, frame, language, token, second)
                }
            }
        }
        Some(Symbol::Longest(inner)) => {
            let frame = past(frame);
            if begins(inner, token) {
                match try_below(alloc, frames, frame, language, inner, token, second)? {
                    None => Ok(Progress::Consumed),
                    Some(_) => Ok(Progress::Rejected),
                }
            } else {
                along(alloc, frames, frame, language, token, second)
            }
        }
    }
}

/// Leads the token into the open productions, closing those that it does not go on with.
#[tactic(auto, using(crate::proofs::ClimbLemmas::climbing))]
pub fn advance(
    alloc: Global,
    frames: &mut Vec<Frame>,
    is_deep: &mut bool,
    measure: Measure,
    limit: u16,
    language: Language,
    token: &Token,
    second: Second,
) -> Result<bool, AllocError>
    ensures { IfOk result (λ went. Advanced went measure limit is_deep.old is_deep.new language token.now second (frames_of frames.old.items) (frames_of frames.new.items)) }
{
    while let Some(frame) = frames.pop() {
        match along(alloc, frames, frame, language, token, second)? {
            Progress::Rejected => return Ok(false),
            Progress::Consumed => return Ok(true),
            Progress::FrameDone(done) => {
                let value = closed(done)?;
                pass_up(frames, token);
                match give(frames, value, measure, limit, *is_deep)? {
                    Placement::Refused => return Ok(false),
                    Placement::Kept => {}
                    Placement::Dropped => *is_deep = true,
                }
            }
        }
    }
    Ok(false)
}

/// Whether the production wants nothing more from the place on.
#[cycle(skips)]
fn skips(production: Production, place: usize) -> bool
    ensures { result ≡ skips (drop place (body production)) }
{
    match symbol(production, place) {
        None => true,
        Some(Symbol::Tok(_)) | Some(Symbol::One(_)) => false,
        Some(Symbol::Maybe(_)) | Some(Symbol::Many(_)) | Some(Symbol::Longest(_)) => {
            skips(production, place + 1)
        }
    }
}

/// The value, unless it nests too deep or a part of it was dropped.
#[tactic(auto, using(crate::proofs::CapLemmas::choosing))]
fn judged(value: Value, measure: Measure, limit: u16, is_deep: bool) -> Reading
    ensures { Judged result value.raw measure limit is_deep }
{
    let Value {
        raw,
        levels,
        within,
    } = value;
    if is_deep || chosen(measure, levels, within) > u32::from(limit) {
        drop(raw);
        Reading::TooDeep
    } else {
        Reading::Value(raw)
    }
}

/// What has been read at the end of the tokens.
#[tactic(auto, using(crate::proofs::ClimbLemmas::finishing))]
pub fn finish(
    frames: Vec<Frame>,
    measure: Measure,
    limit: u16,
    is_deep: bool,
) -> Result<Reading, AllocError>
    ensures { IfOk result (λ reading. Finished reading measure limit is_deep (frames_of frames.items)) }
{
    let mut frames = frames;
    let mut deep = is_deep;
    while let Some(frame) = frames.pop() {
        if !skips(frame.production, frame.place) {
            drop(frame);
            return Ok(Reading::Nothing);
        }
        let value = closed(frame)?;
        if frames.is_empty() {
            return Ok(judged(value, measure, limit, deep));
        }
        match give(&mut frames, value, measure, limit, deep)? {
            Placement::Refused => return Ok(Reading::Nothing),
            Placement::Kept => {}
            Placement::Dropped => deep = true,
        }
    }
    Ok(Reading::Nothing)
}
