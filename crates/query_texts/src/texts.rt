// From the first token of a text to its end.
ghost use Rattle.std.specs.Prelude.{◌≡◌, ◌∷◌, [], ℕ, List, IfOk};
ghost use Rattle.std.specs.Str.{chars};
ghost use Rattle.expr_keys.specs.declared.tokens.Token.{Token as Term};
ghost use Rattle.expr_terms.specs.Choices.{second_of};
ghost use Rattle.query_grammar.specs.Machine.{Mode, read_query, wants};
ghost use Rattle.query_reader.specs.QuerySteps.Stands.{Stands};
ghost use Rattle.query_reader.specs.declared.query_steps.stages.ReaderState.TheVariants.{Body};
ghost use Rattle.query_pieces.specs.declared.contexts.Before.{Before};
ghost use Rattle.query_pieces.specs.Points.{Point, before_of};
ghost use Rattle.query_pieces.specs.Aheads.{Sees};
ghost use Rattle.query_pieces.specs.Readings.{Reads};
ghost use Rattle.query_texts.specs.Texts.{ReadAs};
ghost use Rattle.query_texts.specs.Standings.{Here, Standing, Judged, Takes, Closes, Follows};
ghost use Rattle.query_texts.specs.Standings.{IsShorter, SeesOn, Parted, Bodily, progress};

use crate::bodies::body_rest;
use crate::orders::{Order, placed};
use crate::readings::QueryReading;
use expr_reader::{ExprParser, Reading};
use expr_terms::{Second, Token};
use query_grammar::{Declared, RawQuery};
use query_pieces::{Ahead, Found, Pieces, asks, second};
use query_reader::query_steps::{ReaderState, StepResult, finish, step, wants};
use std::alloc::{AllocError, Global};
use xt_names::List;

/// How far a text is read.
#[derive(Drop)]
struct Progress {
    stage: ReaderState,
    order: Order,
    /// Whether an expression has nested deeper than the limit.
    is_deep: bool,
    /// The declarations, as long as none has.
    declared: List<Declared>,
}

/// How far the body of a query is read, and what comes before it.
#[derive(Drop)]
struct BodyProgress {
    reader: ExprParser,
    order: Order,
    is_deep: bool,
    declared: List<Declared>,
}

/// What comes of a token.
#[derive(Drop)]
enum Next<'a> {
    Ends(QueryReading),
    /// How far the text is read then, and what is seen of the rest.
    Onto(Progress, Option<Ahead<'a>>),
}

/// After a declaration.
#[tactic(auto, using(crate::proofs::StandingLemmas::standings))]
fn behind(
    alloc: Global,
    order: Order,
    is_deep: bool,
    declared: List<Declared>,
    ended: Option<Declared>,
) -> Result<Option<Progress>, AllocError>
    ensures { IfOk result (λ found. (k : ℕ) (b : Before) (ts us : List Term) →
        Closes k ended order is_deep declared ts us → Takes k found b ts us) }
{
    let mut declared = declared;
    match ended {
        None => Ok(Some(Progress {
            stage: ReaderState::Front,
            order: Order::Late,
            is_deep: true,
            declared,
        })),
        Some(last) => match placed(order, &last) {
            None => Ok(None),
            Some(order) => {
                declared.push(last)?;
                Ok(Some(Progress {
                    stage: ReaderState::Front,
                    order,
                    is_deep,
                    declared,
                }))
            }
        },
    }
}

/// Takes a token; None where no query goes on so.
#[tactic(auto, using(crate::proofs::StandingLemmas::standings))]
fn take(
    alloc: Global,
    limit: u16,
    progress: Progress,
    token: Token,
    second: Second,
) -> Result<Option<Progress>, AllocError>
    ensures { IfOk result (λ found. (b : Before) (ts us : List Term) → second_of us ≡ second →
        Here limit progress b ts (token ∷ us) → Takes limit found (before_of token) ts us) }
{
    let Progress {
        stage,
        order,
        is_deep,
        declared,
    } = progress;
    match step(alloc, stage, limit, token, second)? {
        StepResult::Refused => Ok(None),
        StepResult::Onto(stage) => Ok(Some(Progress {
            stage,
            order,
            is_deep,
            declared,
        })),
        StepResult::Ends(ended) => behind(alloc, order, is_deep, declared, ended),
    }
}

/// At the end of the text.
#[tactic(auto, using(crate::proofs::StandingLemmas::standings))]
fn end(alloc: Global, limit: u16, progress: Progress) -> Result<QueryReading, AllocError>
    ensures { IfOk result (λ reading. (b : Before) (ts : List Term) →
        Here limit progress b ts [] → Judged limit reading (read_query ts)) }
{
    let Progress {
        stage,
        order: _,
        is_deep,
        declared,
    } = progress;
    match finish(alloc, stage, limit)? {
        Reading::Nothing => Ok(QueryReading::Nothing),
        Reading::TooDeep => Ok(QueryReading::TooDeep),
        Reading::Value(body) => {
            if is_deep {
                drop(body);
                Ok(QueryReading::TooDeep)
            } else {
                Ok(QueryReading::Value(RawQuery { declared, body }))
            }
        }
    }
}

/// Whether an operand may come next, where that matters.
fn operand_at(stage: &ReaderState, ahead: Option<Ahead<'_>>) -> bool
    ensures { (p : Point) → Sees p ahead.entry → (k : ℕ) (m : Mode) (ts : List Term)
        → Stands k stage.now m ts → (t : Term) (q : Point) → Reads (wants m) p t q
        → Reads result p t q }
{
    asks(ahead) && wants(stage)
}

/// Reads one token on, of which this is seen.
#[tactic(auto, using(crate::proofs::StandingLemmas::standings))]
fn read_on<'a>(
    alloc: Global,
    limit: u16,
    pieces: &mut Pieces<'a>,
    progress: Progress,
    ahead: Option<Ahead<'a>>,
) -> Result<Next<'a>, AllocError>
    requires { Sees pieces.old ahead }
    ensures follows { IfOk result (λ next. (text : List ℕ) →
        Standing limit text progress pieces.old → Follows limit text next pieces.new) }
    ensures shorter { IfOk result (λ next. IsShorter next pieces.old pieces.new) }
    ensures sees { IfOk result (λ next. SeesOn next pieces.new) }
{
    let operand = operand_at(&progress.stage, ahead);
    match pieces.read(alloc, operand, ahead)? {
        Found::Nothing => Ok(Next::Ends(QueryReading::Nothing)),
        Found::End => Ok(Next::Ends(end(alloc, limit, progress)?)),
        Found::Token(token) => {
            let seen = pieces.ahead();
            match take(alloc, limit, progress, token, second(seen))? {
                None => Ok(Next::Ends(QueryReading::Nothing)),
                Some(further) => Ok(Next::Onto(further, seen)),
            }
        }
    }
}

/// Reads the body, of which this is read, to the end of the text.
fn body_on<'a>(
    alloc: Global,
    limit: u16,
    pieces: &mut Pieces<'a>,
    body: BodyProgress,
    ahead: Option<Ahead<'a>>,
) -> Result<Next<'a>, AllocError>
    requires { Sees pieces.old ahead }
    ensures follows { IfOk result (λ next. (text : List ℕ) →
        Standing limit text (progress (Body body.reader) body.order body.is_deep body.declared)
        pieces.old → Follows limit text next pieces.new) }
    ensures shorter { IfOk result (λ next. IsShorter next pieces.old pieces.new) }
    ensures sees { IfOk result (λ next. SeesOn next pieces.new) }
{
    let BodyProgress {
        reader,
        order,
        is_deep,
        declared,
    } = body;
    match body_rest(alloc, pieces, reader, ahead) {
        Err(e) => {
            drop(declared);
            Err(e)
        }
        Ok(None) => {
            drop(declared);
            Ok(Next::Ends(QueryReading::Nothing))
        }
        Ok(Some(reader)) => {
            let progress = Progress {
                stage: ReaderState::Body(reader),
                order,
                is_deep,
                declared,
            };
            Ok(Next::Ends(end(alloc, limit, progress)?))
        }
    }
}

/// What is read of the body, where it is the body that is read.
fn body_of(stage: ReaderState) -> Result<ExprParser, ReaderState>
    ensures { Parted stage result }
{
    match stage {
        ReaderState::Body(reader) => Ok(reader),
        ReaderState::Front => Err(ReaderState::Front),
        ReaderState::Held(first, behind) => Err(ReaderState::Held(first, behind)),
        ReaderState::Head(opening, tokens) => Err(ReaderState::Head(opening, tokens)),
        ReaderState::Value(variable, reader) => Err(ReaderState::Value(variable, reader)),
        ReaderState::Inner(signature, reader) => Err(ReaderState::Inner(signature, reader)),
        ReaderState::Closed(last) => Err(ReaderState::Closed(last)),
    }
}

/// How far the body is read, where it is the body that is read.
fn in_body(progress: Progress) -> Result<BodyProgress, Progress>
    ensures { Bodily progress result }
{
    let Progress {
        stage,
        order,
        is_deep,
        declared,
    } = progress;
    match body_of(stage) {
        Ok(reader) => Ok(BodyProgress {
            reader,
            order,
            is_deep,
            declared,
        }),
        Err(stage) => Err(Progress {
            stage,
            order,
            is_deep,
            declared,
        }),
    }
}

/// Reads on: the body to the end of the text where it stands, and else one token.
fn go_on<'a>(
    alloc: Global,
    limit: u16,
    pieces: &mut Pieces<'a>,
    progress: Progress,
    ahead: Option<Ahead<'a>>,
) -> Result<Next<'a>, AllocError>
    requires { Sees pieces.old ahead }
    ensures follows { IfOk result (λ next. (text : List ℕ) →
        Standing limit text progress pieces.old → Follows limit text next pieces.new) }
    ensures shorter { IfOk result (λ next. IsShorter next pieces.old pieces.new) }
    ensures sees { IfOk result (λ next. SeesOn next pieces.new) }
{
    match in_body(progress) {
        Ok(body) => body_on(alloc, limit, pieces, body, ahead),
        Err(progress) => read_on(alloc, limit, pieces, progress, ahead),
    }
}

/// The query that the text spells, where each of its expressions (its body, the initialisers and
/// the bodies of functions) nests no deeper than the limit. Nothing is told exactly where it spells
/// no query, and TooDeep exactly where it spells one with an expression that nests deeper.
/// (XQuery 1.0, 4 and A)
#[tactic(auto, using(crate::proofs::StandingLemmas::standings))]
pub fn read_query(alloc: Global, text: &str, limit: u16) -> Result<QueryReading, AllocError>
    ensures { IfOk result (λ reading. ReadAs (chars text.now) limit reading) }
{
    let mut pieces = Pieces::new(alloc, text);
    let mut progress = Progress {
        stage: ReaderState::Front,
        order: Order::First,
        is_deep: false,
        declared: List::new(alloc),
    };
    let mut ahead = pieces.ahead();
    loop {
        match go_on(alloc, limit, &mut pieces, progress, ahead)? {
            Next::Ends(reading) => return Ok(reading),
            Next::Onto(further, seen) => {
                progress = further;
                ahead = seen;
            }
        }
    }
}
